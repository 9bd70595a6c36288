// Start notices: what an office tells its seats when a change begins.
ghost use Rattle.std.proofs.Common.{rules};
ghost use Rattle.records.specs.Layout.{notice_mark, notice_length, encode_notice, decode_notice};
ghost use Rattle.record_bytes.specs.InRoom.{decoded, encoded};

use crate::bytes::{get32, get64, put};
use crate::record::Record;
use records::{InRoom, Notice, layout};
use seats::SeatSet;

impl Record for InRoom<Notice> {
    ghost MARK = { notice_mark };

    ghost LENGTH = { notice_length };

    ghost decoded = { decoded decode_notice };

    ghost encoded = { encoded encode_notice };

    const MARK: [u8; 2] = layout::NOTICE_MARK;

    const LENGTH: usize = layout::NOTICE_LENGTH;

    #[tactic(auto, unfolding(records::specs::Layout::decode_notice, records::specs::Layout::room_of))]
    fn decode(bytes: &[u8]) -> Self {
        if bytes.len() != Self::LENGTH {
            return InRoom {
                room: 0,
                record: Notice {
                    start: 0,
                    members: SeatSet::EMPTY,
                },
            };
        }
        InRoom {
            room: bytes[layout::ROOM],
            record: Notice {
                start: get32(bytes, layout::NOTICE_START),
                members: SeatSet {
                    bits: get64(bytes, layout::NOTICE_MEMBERS),
                },
            },
        }
    }

    #[tactic(auto, unfolding(records::specs::Layout::encode_notice))]
    fn size(self) -> usize {
        Self::LENGTH
    }

    fn put(self, out: &mut [u8], at: usize) {
        let n = self.record;
        put(out, at, &Self::MARK);
        put(out, at + layout::ROOM, &[self.room]);
        put(out, at + layout::NOTICE_START, &n.start.to_be_bytes());
        put(
            out,
            at + layout::NOTICE_MEMBERS,
            &n.members.bits.to_be_bytes(),
        );
    }

    ghost marked = { Prim.search rules };

    ghost some = { Prim.search rules };
}
