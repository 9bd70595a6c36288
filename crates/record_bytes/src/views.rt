// Views: what an office tells its seats when offices agree.
ghost use Rattle.std.proofs.Common.{rules};
ghost use Rattle.records.specs.Layout.{view_mark, view_length, encode_view, decode_view};
ghost use Rattle.record_bytes.specs.InRoom.{decoded, encoded};

use crate::bytes::{get_sixteen, get32, get64, put, put_sixteen};
use crate::record::Record;
use records::{InRoom, View, layout};
use seats::SeatSet;

impl Record for InRoom<View> {
    ghost MARK = { view_mark };

    ghost LENGTH = { view_length };

    ghost decoded = { decoded decode_view };

    ghost encoded = { encoded encode_view };

    const MARK: [u8; 2] = layout::VIEW_MARK;

    const LENGTH: usize = layout::VIEW_LENGTH;

    #[tactic(auto, unfolding(records::specs::Layout::decode_view, records::specs::Layout::room_of))]
    fn decode(bytes: &[u8]) -> Self {
        if bytes.len() != Self::LENGTH {
            return InRoom {
                room: 0,
                record: View {
                    number: 0,
                    members: SeatSet::EMPTY,
                    starts: [0; 16],
                },
            };
        }
        InRoom {
            room: bytes[layout::ROOM],
            record: View {
                number: get32(bytes, layout::VIEW_NUMBER),
                members: SeatSet {
                    bits: get64(bytes, layout::VIEW_MEMBERS),
                },
                starts: get_sixteen(bytes, layout::STARTS),
            },
        }
    }

    fn size(self) -> usize {
        Self::LENGTH
    }

    fn put(self, out: &mut [u8], at: usize) {
        let v = self.record;
        put(out, at, &Self::MARK);
        put(out, at + layout::ROOM, &[self.room]);
        put(out, at + layout::VIEW_NUMBER, &v.number.to_be_bytes());
        put(
            out,
            at + layout::VIEW_MEMBERS,
            &v.members.bits.to_be_bytes(),
        );
        put_sixteen(out, at + layout::STARTS, &v.starts);
    }

    ghost marked = { Prim.search rules };

    ghost some = { Prim.search rules };
}
