// The bytes that part lines and words.
pub const LINE_FEED: u8 = b'\n';

pub const SPACE: u8 = b' ';

pub const MINUS: u8 = b'-';

pub const ZERO: u8 = b'0';
