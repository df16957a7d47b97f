// Where the words that the cases set stand in a region and in a sample.
pub const SAMPLE: usize = 0;

pub const HIKEY: usize = 2;

pub const HIVEL: usize = 4;

pub const KEYCENTER: usize = 5;

pub const LOOP_MODE: usize = 10;

pub const LOOP: usize = 12;

pub const LOOP_START: usize = 13;

pub const LOOP_END: usize = 14;

pub const FILTERS: usize = 27;

pub const KEYTRACK: usize = 39;

pub const BEND_UP: usize = 41;

pub const BEND_DOWN: usize = 42;

pub const RELEASE: usize = 47;

pub const OFF_TIME: usize = 48;

pub const SUSTAIN: usize = 50;

pub const WIDTH: usize = 55;

pub const VELTRACK: usize = 56;

// Of a sample.
pub const CHANNELS: usize = 1;

pub const FRAMES: usize = 2;
