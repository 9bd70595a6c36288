// Reports: what an office is told of its seats.
ghost use Rattle.std.proofs.Common.{rules};
ghost use Rattle.records.specs.Layout.{report_mark, report_length, encode_report, decode_report};
ghost use Rattle.record_bytes.specs.InRoom.{decoded, encoded};

use crate::bytes::{get64, put};
use crate::record::Record;
use records::{InRoom, Report, layout};
use seats::SeatSet;

impl Record for InRoom<Report> {
    ghost MARK = { report_mark };

    ghost LENGTH = { report_length };

    ghost decoded = { decoded decode_report };

    ghost encoded = { encoded encode_report };

    const MARK: [u8; 2] = layout::REPORT_MARK;

    const LENGTH: usize = layout::REPORT_LENGTH;

    #[tactic(auto, unfolding(records::specs::Layout::decode_report, records::specs::Layout::room_of))]
    fn decode(bytes: &[u8]) -> Self {
        if bytes.len() != Self::LENGTH {
            return InRoom {
                room: 0,
                record: Report {
                    joining: SeatSet::EMPTY,
                    leaving: SeatSet::EMPTY,
                },
            };
        }
        InRoom {
            room: bytes[layout::ROOM],
            record: Report {
                joining: SeatSet {
                    bits: get64(bytes, layout::JOINING),
                },
                leaving: SeatSet {
                    bits: get64(bytes, layout::LEAVING),
                },
            },
        }
    }

    #[tactic(auto, unfolding(records::specs::Layout::encode_report))]
    fn size(self) -> usize {
        Self::LENGTH
    }

    fn put(self, out: &mut [u8], at: usize) {
        let r = self.record;
        put(out, at, &Self::MARK);
        put(out, at + layout::ROOM, &[self.room]);
        put(out, at + layout::JOINING, &r.joining.bits.to_be_bytes());
        put(out, at + layout::LEAVING, &r.leaving.bits.to_be_bytes());
    }

    ghost marked = { Prim.search rules };

    ghost some = { Prim.search rules };
}
