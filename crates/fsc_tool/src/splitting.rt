//! A script and a log in one input.

ghost use Rattle.std.specs.Prelude.{◌≡◌};
ghost use Rattle.std.specs.Option.{option_map};
ghost use Rattle.fsc_tool.specs.Splitting.{split_input};

use text_words::next_line;

// The line that separates them.
const PARTING: &[u8] = b"---";

// Returns what is before the first separating line and what is after it, or `None` if there is no such
// line.
pub(crate) fn split_input(input: &[u8]) -> Option<(&[u8], &[u8])>
    ensures { option_map (λ parts. (parts.0.now, parts.1.now)) result ≡ split_input input.now }
{
    let mut rest = input;
    'lines: while !rest.is_empty() {
        let line = next_line(rest);
        if !line.ended {
            return None;
        }
        if line.bytes == PARTING {
            let before = input.len() - rest.len();
            return Some((&input[..before], line.rest));
        }
        rest = line.rest;
    }
    None
}
