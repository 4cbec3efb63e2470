// An answer as the bytes that go home.
ghost use Rattle.std.specs.Prelude.{◌≡◌, length};
ghost use Rattle.reader.specs.Answers.{answer_seen, answer_bytes, answer_memory};

use super::answer::Answer;
use packet::WellFormed;

impl Answer {
    // Lays the answer into the memory, zeros behind it, and answers how many bytes it has.
    pub(crate) fn lay(self, memory: &mut [u8; 67]) -> usize
        ensures count { result ≡ length (answer_bytes (answer_seen self)) }
        ensures memory { memory.new ≡ answer_memory (answer_seen self) }
    {
        match self {
            Answer::Nothing => {
                *memory = [0; 67];
                0
            }
            Answer::Handshake(handshake) => WellFormed::handshake(handshake).build(memory),
            Answer::Data(kind, body) => WellFormed::data(kind, &body).build(memory),
        }
    }
}
