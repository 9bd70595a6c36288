// Why something is refused: the reasons of the documents' list, each with its number there.
ghost use Rattle.std.specs.Prelude.{◌≡◌};
ghost use Rattle.records.specs.Refusals.{number};

#[derive(Clone, Copy, PartialEq, Eq)]
pub enum Refusal {
    // The office is above 15.
    Office = 1,
    // No table of states.
    State = 2,
    // The output is too short.
    Output = 3,
    // A mark that has no place here.
    Mark = 4,
    // Not the length of its mark.
    Length = 5,
    // A sender that is no other office, or no seat.
    Sender = 6,
    // Neither fast nor slow.
    Kind = 7,
    // A number above L, or 0 where none may be.
    Number = 8,
    // No seat among the members.
    Members = 9,
    // A number for an office without a seat among the members.
    Stray = 10,
    // Not above the last number accepted from its sender.
    OldProposal = 11,
    // It uses a number of this office that it has not reached.
    Unreached = 12,
    // It would make a number above L.
    Ceiling = 13,
    // Not above the last start number, or below the last view number.
    OldNotice = 14,
    // No change is open, or it has another start number.
    UnawaitedView = 15,
    // Not above the last start number.
    LowView = 16,
    // No sheet.
    Sheet = 17,
    // No file of high marks.
    File = 18,
    // Its used number for its sender is not below its own number.
    SelfUse = 19,
    // The room is above 7.
    Room = 20,
}

// Its number in the list.
impl From<Refusal> for u8 {
    ghost from_gives = { λ r n. n ≡ number r };

    fn from(r: Refusal) -> u8 {
        r as u8
    }
}
