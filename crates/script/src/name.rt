// What a script names by words of its own: the kinds of packets, the parts of a link, and the steps.
ghost use Rattle.std.specs.Prelude.{◌≡◌};
ghost use Rattle.script.specs.Names.{named_among};

use super::Misread;

// The first of the table that has this word for its name.
// The loop stays: one line of invariant proves it, and for `find` with `map` and `ok_or` the check found no proof by
// itself.
pub(crate) fn named<T: Copy>(
    word: &[u8],
    table: &[(&str, T)],
    otherwise: Misread,
) -> Result<T, Misread>
    ensures { result ≡ named_among word.now table.now otherwise }
{
    for (name, value) in table {
        if word == name.as_bytes() {
            return Ok(*value);
        }
    }
    Err(otherwise)
}
