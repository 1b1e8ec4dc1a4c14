//! Laws of images.

ghost use Rattle.image_lines.specs.Reading.{ImagesAreTexts};

/// A text is read as an image exactly when it is the text of that image, and the image is one. So no two
/// images have the same text.
pub fn images_are_texts()
    ensures { ImagesAreTexts }
{}
