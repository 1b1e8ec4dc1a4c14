//! What a tag is made of.

ghost use Rattle.std.specs.Prelude.{◌≡◌, []};

/// The texts that a tag is made of (RFC 9106, section 3.1): a password, a salt, a secret and further bytes.
///
/// A tag needs a salt of 8 to 1,024 bytes, and other texts of at most 1,024 bytes each.
#[derive(Clone, Copy)]
pub struct Texts<'a> {
    pub password: &'a [u8],
    pub salt: &'a [u8],
    pub secret: &'a [u8],
    pub extra: &'a [u8],
}

impl<'a> Texts<'a> {
    /// Returns a password and a salt, with no secret and no further bytes.
    pub fn without_secret(password: &'a [u8], salt: &'a [u8]) -> Texts<'a>
        ensures password { result.password.now ≡ password.now }
        ensures salt { result.salt.now ≡ salt.now }
        ensures secret { result.secret.now ≡ [] }
        ensures extra { result.extra.now ≡ [] }
    {
        Texts {
            password,
            salt,
            secret: &[],
            extra: &[],
        }
    }
}
