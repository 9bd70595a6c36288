// Proposals: what an office proposes to the others.
ghost use Rattle.std.proofs.Common.{rules};
ghost use Rattle.records.specs.Layout.{proposal_mark, proposal_length, encode_proposal, decode_proposal};
ghost use Rattle.record_bytes.specs.InRoom.{decoded, encoded};

use crate::bytes::{get_sixteen, get32, get64, put, put_sixteen};
use crate::record::Record;
use records::{InRoom, Proposal, layout};
use seats::SeatSet;

impl Record for InRoom<Proposal> {
    ghost MARK = { proposal_mark };

    ghost LENGTH = { proposal_length };

    ghost decoded = { decoded decode_proposal };

    ghost encoded = { encoded encode_proposal };

    const MARK: [u8; 2] = layout::PROPOSAL_MARK;

    const LENGTH: usize = layout::PROPOSAL_LENGTH;

    #[tactic(auto, unfolding(records::specs::Layout::decode_proposal, records::specs::Layout::room_of))]
    fn decode(bytes: &[u8]) -> Self {
        if bytes.len() != Self::LENGTH {
            return InRoom {
                room: 0,
                record: Proposal {
                    sender: 0,
                    kind: 0,
                    members: SeatSet::EMPTY,
                    start: 0,
                    number: 0,
                    used: [0; 16],
                },
            };
        }
        InRoom {
            room: bytes[layout::ROOM],
            record: Proposal {
                sender: bytes[layout::SENDER],
                kind: bytes[layout::KIND],
                members: SeatSet {
                    bits: get64(bytes, layout::PROPOSAL_MEMBERS),
                },
                start: get32(bytes, layout::PROPOSAL_START),
                number: get32(bytes, layout::PROPOSAL_NUMBER),
                used: get_sixteen(bytes, layout::USED),
            },
        }
    }

    fn size(self) -> usize {
        Self::LENGTH
    }

    fn put(self, out: &mut [u8], at: usize) {
        let p = self.record;
        put(out, at, &Self::MARK);
        put(out, at + layout::ROOM, &[self.room]);
        put(out, at + layout::SENDER, &[p.sender]);
        put(out, at + layout::KIND, &[p.kind]);
        put(
            out,
            at + layout::PROPOSAL_MEMBERS,
            &p.members.bits.to_be_bytes(),
        );
        put(out, at + layout::PROPOSAL_START, &p.start.to_be_bytes());
        put(out, at + layout::PROPOSAL_NUMBER, &p.number.to_be_bytes());
        put_sixteen(out, at + layout::USED, &p.used);
    }

    ghost marked = { Prim.search rules };

    ghost some = { Prim.search rules };
}
