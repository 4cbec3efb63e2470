// How what arrives is laid into the memory of whoever hears it.
ghost use Rattle.std.specs.Prelude.{◌≡◌, ◌-◌, ◌≤◌, ◌++◌, length, replicate};
ghost use Rattle.wire.specs.Carrying.{one_more, laid};

// The bytes in front, zeros behind; answers how many arrive. Here and wherever memory is filled, the count and the
// memory are two clauses, since callers cite them one by one.
pub(crate) fn lay(bytes: &[u8], heard: &mut [u8; 67]) -> usize
    requires { length bytes.now ≤ 67 }
    ensures count { result ≡ length bytes.now }
    ensures memory { heard.new ≡ laid bytes.now }
{
    let count = bytes.len();
    *heard = [0; 67];
    heard[..count].copy_from_slice(bytes);
    count
}

// A tally that grows by one, up to 255. The wires hold it as a number: any u8 is a tally, so a type would say no more.
pub(crate) fn grown(tally: u8) -> u8
    ensures { result ≡ one_more tally }
{
    tally.saturating_add(1)
}
