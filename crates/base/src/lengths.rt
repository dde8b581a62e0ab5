// How many bytes the longest texts have. Each number is tied to the lines of its text by a law of that text's crate:
// `longest-network`, `longest-chain`, `longest-kept`, `longest-page`.

pub const LONGEST_NETWORK: usize = 15_883;

pub const LONGEST_CHAIN: usize = 8_897;

pub const LONGEST_KEPT: usize = 3_619;

pub const LONGEST_PAGE: usize = 18_981;
