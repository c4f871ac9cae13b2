/// The greatest number that a site can have; the least is 1.
pub const GREATEST_SITE: u8 = 63;

/// The most members that a federation can have; the fewest is 1.
pub const MOST_MEMBERS: u8 = 63;

/// The greatest weight that a member can have; the least is 1.
pub const GREATEST_WEIGHT: u8 = 255;

/// The most bytes that the name of an object can have; the fewest is 1.
pub const LONGEST_OBJECT: usize = 200;
