// High marks: what an office keeps in its file before a record leaves.
ghost use Rattle.std.proofs.Common.{rules};
ghost use Rattle.records.specs.Layout.{high_mark, high_length, encode_high, decode_high};

use crate::bytes::{get32, put};
use crate::record::Record;
use records::{High, layout};

impl Record for High {
    ghost MARK = { high_mark };

    ghost LENGTH = { high_length };

    ghost decoded = { decode_high };

    ghost encoded = { encode_high };

    const MARK: [u8; 2] = layout::HIGH_MARK;

    const LENGTH: usize = layout::HIGH_LENGTH;

    #[tactic(auto, unfolding(records::specs::Layout::decode_high))]
    fn decode(bytes: &[u8]) -> Self {
        if bytes.len() != Self::LENGTH {
            return High {
                number: 0,
                again: 0,
            };
        }
        High {
            number: get32(bytes, layout::HIGH_NUMBER),
            again: get32(bytes, layout::HIGH_AGAIN),
        }
    }

    #[tactic(auto, unfolding(records::specs::Layout::encode_high))]
    fn size(self) -> usize {
        Self::LENGTH
    }

    fn put(self, out: &mut [u8], at: usize) {
        put(out, at, &Self::MARK);
        put(out, at + layout::HIGH_NUMBER, &self.number.to_be_bytes());
        put(out, at + layout::HIGH_AGAIN, &self.again.to_be_bytes());
    }

    ghost marked = { Prim.search rules };

    ghost some = { Prim.search rules };
}
