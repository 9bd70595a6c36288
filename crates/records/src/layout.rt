// The layout: each mark, length and place once, for reader and writer alike.

pub const REPORT_MARK: [u8; 2] = *b"NE";

pub const PROPOSAL_MARK: [u8; 2] = *b"PR";

pub const NOTICE_MARK: [u8; 2] = *b"SC";

pub const VIEW_MARK: [u8; 2] = *b"VW";

pub const SYNC_MARK: [u8; 2] = *b"SY";

pub const HIGH_MARK: [u8; 2] = *b"HM";

// Each mark's value: its two bytes as one number.
pub const REPORT: u16 = (REPORT_MARK[0] as u16) * 256 + (REPORT_MARK[1] as u16);

pub const PROPOSAL: u16 = (PROPOSAL_MARK[0] as u16) * 256 + (PROPOSAL_MARK[1] as u16);

pub const NOTICE: u16 = (NOTICE_MARK[0] as u16) * 256 + (NOTICE_MARK[1] as u16);

pub const VIEW: u16 = (VIEW_MARK[0] as u16) * 256 + (VIEW_MARK[1] as u16);

// The room of a report, a proposal, a start notice or a view.
pub const ROOM: usize = 2;

pub const REPORT_LENGTH: usize = 19;

pub const JOINING: usize = 3;

pub const LEAVING: usize = 11;

pub const PROPOSAL_LENGTH: usize = 85;

pub const SENDER: usize = 3;

pub const KIND: usize = 4;

pub const PROPOSAL_MEMBERS: usize = 5;

pub const PROPOSAL_START: usize = 13;

pub const PROPOSAL_NUMBER: usize = 17;

pub const USED: usize = 21;

pub const NOTICE_LENGTH: usize = 15;

pub const NOTICE_START: usize = 3;

pub const NOTICE_MEMBERS: usize = 7;

pub const VIEW_LENGTH: usize = 79;

pub const VIEW_NUMBER: usize = 3;

pub const VIEW_MEMBERS: usize = 7;

pub const STARTS: usize = 15;

pub const SYNC_LENGTH: usize = 11;

pub const SYNC_SEAT: usize = 2;

pub const SYNC_START: usize = 3;

pub const SYNC_PREVIOUS: usize = 7;

pub const HIGH_LENGTH: usize = 10;

pub const HIGH_NUMBER: usize = 2;

pub const HIGH_AGAIN: usize = 6;
