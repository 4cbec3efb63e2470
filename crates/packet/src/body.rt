// A body that is held by itself: at most 64 bytes, with zeros behind them. Its memory is fixed, since there is no heap.
// It has no model: an enum that holds a struct with a model is not copied when it is passed on twice, and the answers of the
// reader and what arrives at the host are such enums.
ghost use Rattle.std.specs.Prelude.{◌≡◌, ◌-◌, ◌≤◌, length, take, drop, replicate};

#[derive(Clone, Copy)]
pub struct Body {
    bytes: [u8; 64],
    length: usize,
    ghost fits: { length ≤ 64 },
    ghost zeros: { drop length bytes ≡ replicate (64 - length) 0 },
}

impl Body {
    ghost use Rattle.std.specs.Prelude.{[]};
    ghost use Rattle.packet.specs.Bodies.{held};

    pub fn empty() -> Self
        ensures { held result ≡ [] }
    {
        Body {
            bytes: [0; 64],
            length: 0,
        }
    }

    // The first 64 of the bytes, or all of them if there are fewer.
    pub fn of(bytes: &[u8]) -> Self
        ensures { held result ≡ take 64 bytes.now }
    {
        let length = bytes.len().min(64);
        let mut memory = [0; 64];
        memory[..length].copy_from_slice(&bytes[..length]);
        Body {
            bytes: memory,
            length,
        }
    }

    pub fn as_slice(&self) -> &[u8]
        ensures bytes { result.now ≡ held self.now }
        ensures bound { length result.now ≤ 64 }
    {
        &self.bytes[..self.length]
    }
}
