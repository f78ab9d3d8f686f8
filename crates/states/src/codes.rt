// The numbers of the table: what stands in a row, and the codes of fields. Numbers and no enum: the packed table holds them, the definitions `act` and
// `code_by` (format, specs/Table.antt) are numbers, and an enum would have to be made of each row that is looked at.

// What stands in a row: the end of a group or a packet, the packet inside one, a field, and a field that says how often a group is sent. How far any other
// field leads that steers says `table::leap`.
pub const END: u32 = 0;

pub const NEST: u32 = 1;

pub const SEND: u32 = 2;

pub const TIMES: u32 = 5;

// The codes of fields. Below SIZE a value may be anything and nothing is kept of it.
pub const DISTANCE: u32 = 1;

pub const TEXT: u32 = 2;

pub const SIZE: u32 = 3;

pub const PIG: u32 = 4;

pub const TOTAL: u32 = 5;

pub const RADIO: u32 = 6;

pub const PACKET: u32 = 7;

pub const USER: u32 = 8;

pub const DIRECTION: u32 = 9;

pub const SCALE: u32 = 11;
