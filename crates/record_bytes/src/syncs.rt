// Sync records: what a desk sends the other desks after a start notice.
ghost use Rattle.std.proofs.Common.{rules};
ghost use Rattle.records.specs.Layout.{sync_mark, sync_length, encode_sync, decode_sync};

use crate::bytes::{get32, put};
use crate::record::Record;
use records::{Sync, layout};

impl Record for Sync {
    ghost MARK = { sync_mark };

    ghost LENGTH = { sync_length };

    ghost decoded = { decode_sync };

    ghost encoded = { encode_sync };

    const MARK: [u8; 2] = layout::SYNC_MARK;

    const LENGTH: usize = layout::SYNC_LENGTH;

    #[tactic(auto, unfolding(records::specs::Layout::decode_sync))]
    fn decode(bytes: &[u8]) -> Self {
        if bytes.len() != Self::LENGTH {
            return Sync {
                seat: 0,
                start: 0,
                previous: 0,
            };
        }
        Sync {
            seat: bytes[layout::SYNC_SEAT],
            start: get32(bytes, layout::SYNC_START),
            previous: get32(bytes, layout::SYNC_PREVIOUS),
        }
    }

    #[tactic(auto, unfolding(records::specs::Layout::encode_sync))]
    fn size(self) -> usize {
        Self::LENGTH
    }

    fn put(self, out: &mut [u8], at: usize) {
        put(out, at, &Self::MARK);
        put(out, at + layout::SYNC_SEAT, &[self.seat]);
        put(out, at + layout::SYNC_START, &self.start.to_be_bytes());
        put(
            out,
            at + layout::SYNC_PREVIOUS,
            &self.previous.to_be_bytes(),
        );
    }

    ghost marked = { Prim.search rules };

    ghost some = { Prim.search rules };
}
