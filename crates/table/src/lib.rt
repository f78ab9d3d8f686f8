// The packets as rows, each packed into one number: what the machine goes by.
#![tactic(auto)]

ghost use Rattle.std.specs.Prelude.{◌≡◌};
ghost use Rattle.format.specs.Table.{words, code_by, free_by};

mod jumps;
mod numbers;
mod ranges;

pub use jumps::{back, leap};
pub use numbers::{fields, named};
pub use ranges::{high, low};
pub use refusals::number;

// From the lowest bit: 3 bits of the act, 7 of the field's width and 6 of the rest: the number of the field's rule, or how far the row
// jumps. Nobody has to read them: the checker computes that they are what the items of the packets give. Whoever checks a telegram has this
// table on the stack, so the numbers are narrow.
const ROWS: [u16; 213] = [
    64, // 0: end
    50186, // 1: Q_UPDOWN
    63546, // 2: M_VERSION
    16394, // 3: Q_MEDIA
    57370, // 4: N_PIG
    58394, // 5: N_TOTAL
    18450, // 6: M_DUP
    66, // 7: M_MCOUNT
    82, // 8: NID_C
    114, // 9: NID_BG
    10, // 10: Q_LINK
    64, // 11: end
    62482, // 12: Q_DIR
    56426, // 13: L_PACKET
    34834, // 14: Q_SCALE
    1146, // 15: D_LINK
    11, // 16: Q_NEWCOUNTRY
    82, // 17: NID_C
    114, // 18: NID_BG
    10, // 19: Q_LINKORIENTATION
    18450, // 20: Q_LINKREACTION
    50, // 21: Q_LOCACC
    9261, // 22: N_ITER
    1146, // 23: D_LINK
    11, // 24: Q_NEWCOUNTRY
    82, // 25: NID_C
    114, // 26: NID_BG
    10, // 27: Q_LINKORIENTATION
    18450, // 28: Q_LINKREACTION
    50, // 29: Q_LOCACC
    9280, // 30: end
    64, // 31: end
    62482, // 32: Q_DIR
    56426, // 33: L_PACKET
    34834, // 34: Q_SCALE
    1146, // 35: D_GRADIENT
    10, // 36: Q_GDIR
    66, // 37: G_A
    5165, // 38: N_ITER
    1146, // 39: D_GRADIENT
    10, // 40: Q_GDIR
    66, // 41: G_A
    5184, // 42: end
    64, // 43: end
    62482, // 44: Q_DIR
    56426, // 45: L_PACKET
    34834, // 46: Q_SCALE
    1146, // 47: D_STATIC
    58, // 48: V_STATIC
    10, // 49: Q_FRONT
    4141, // 50: N_ITER
    18466, // 51: NC_DIFF
    58, // 52: V_DIFF
    4160, // 53: end
    9261, // 54: N_ITER
    1146, // 55: D_STATIC
    58, // 56: V_STATIC
    10, // 57: Q_FRONT
    4141, // 58: N_ITER
    18466, // 59: NC_DIFF
    58, // 60: V_DIFF
    4160, // 61: end
    9280, // 62: end
    64, // 63: end
    62482, // 64: Q_DIR
    56426, // 65: L_PACKET
    34834, // 66: Q_SCALE
    1146, // 67: D_LEVELTR
    20507, // 68: M_LEVELTR
    52290, // 69: NID_STM
    1146, // 70: L_ACKLEVELTR
    5165, // 71: N_ITER
    20507, // 72: M_LEVELTR
    52290, // 73: NID_STM
    1146, // 74: L_ACKLEVELTR
    5184, // 75: end
    64, // 76: end
    62482, // 77: Q_DIR
    56426, // 78: L_PACKET
    10, // 79: Q_RBC
    82, // 80: NID_C
    114, // 81: NID_RBC
    59906, // 82: NID_RADIO
    10, // 83: Q_SLEEPSESSION
    64, // 84: end
    62482, // 85: Q_DIR
    56426, // 86: L_PACKET
    61513, // 87: CTCS packet
    62482, // 88: Q_DIR
    56426, // 89: L_PACKET
    20507, // 90: M_LEVELTR
    52290, // 91: NID_STM
    4141, // 92: N_ITER
    20507, // 93: M_LEVELTR
    52290, // 94: NID_STM
    4160, // 95: end
    64, // 96: end
    62482, // 97: Q_DIR
    56426, // 98: L_PACKET
    34834, // 99: Q_SCALE
    3084, // 100: Q_TRACKINIT
    1146, // 101: D_TRACKINIT
    64, // 102: end
    1146, // 103: D_TRACKCOND
    1146, // 104: L_TRACKCOND
    25634, // 105: M_TRACKCOND
    5165, // 106: N_ITER
    1146, // 107: D_TRACKCOND
    1146, // 108: L_TRACKCOND
    25634, // 109: M_TRACKCOND
    5184, // 110: end
    64, // 111: end
    62482, // 112: Q_DIR
    56426, // 113: L_PACKET
    34834, // 114: Q_SCALE
    17426, // 115: Q_TEXTCLASS
    10, // 116: Q_TEXTDISPLAY
    1146, // 117: D_TEXTDISPLAY
    34, // 118: M_MODETEXTDISPLAY
    21531, // 119: M_LEVELTEXTDISPLAY
    52290, // 120: NID_STM
    2170, // 121: L_TEXTDISPLAY
    82, // 122: T_TEXTDISPLAY
    34, // 123: M_MODETEXTDISPLAY
    21531, // 124: M_LEVELTEXTDISPLAY
    52290, // 125: NID_STM
    18450, // 126: Q_TEXTCONFIRM
    3141, // 127: L_TEXT
    66, // 128: X_TEXT
    3136, // 129: end
    64, // 130: end
    62482, // 131: Q_DIR
    56426, // 132: L_PACKET
    34834, // 133: Q_SCALE
    11, // 134: Q_NEWCOUNTRY
    82, // 135: NID_C
    114, // 136: NID_BG
    1146, // 137: D_POSOFF
    10, // 138: Q_MPOSITION
    1186, // 139: M_POSITION
    8237, // 140: N_ITER
    11, // 141: Q_NEWCOUNTRY
    82, // 142: NID_C
    114, // 143: NID_BG
    1146, // 144: D_POSOFF
    10, // 145: Q_MPOSITION
    1186, // 146: M_POSITION
    8256, // 147: end
    64, // 148: end
    62482, // 149: Q_DIR
    56426, // 150: L_PACKET
    34834, // 151: Q_SCALE
    1146, // 152: D_RBCTR
    82, // 153: NID_C
    114, // 154: NID_RBC
    59906, // 155: NID_RADIO
    10, // 156: Q_SLEEPSESSION
    64, // 157: end
    62482, // 158: Q_DIR
    56426, // 159: L_PACKET
    10, // 160: Q_ASPECT
    64, // 161: end
    62482, // 162: Q_DIR
    56426, // 163: L_PACKET
    10, // 164: Q_SRSTOP
    64, // 165: end
    62482, // 166: Q_DIR
    56426, // 167: L_PACKET
    64, // 168: end
    62482, // 169: Q_DIR
    56426, // 170: L_PACKET
    34834, // 171: Q_SCALE
    1146, // 172: D_SIGNAL
    23586, // 173: NID_SIGNAL
    28714, // 174: NID_FREQUENCY
    1146, // 175: L_SECTION
    5165, // 176: N_ITER
    23586, // 177: NID_SIGNAL
    28714, // 178: NID_FREQUENCY
    1146, // 179: L_SECTION
    5184, // 180: end
    64, // 181: end
    62482, // 182: Q_DIR
    56426, // 183: L_PACKET
    34834, // 184: Q_SCALE
    1146, // 185: L_TSRarea
    1146, // 186: D_TSR
    1146, // 187: L_TSR
    10, // 188: Q_FRONT
    58, // 189: V_TSR
    6189, // 190: N_ITER
    1146, // 191: D_TSR
    1146, // 192: L_TSR
    10, // 193: Q_FRONT
    58, // 194: V_TSR
    6208, // 195: end
    64, // 196: end
    62482, // 197: Q_DIR
    56426, // 198: L_PACKET
    34834, // 199: Q_SCALE
    1146, // 200: D_STARTREVERSE
    1146, // 201: L_REVERSEAREA
    64, // 202: end
    62482, // 203: Q_DIR
    56426, // 204: L_PACKET
    34834, // 205: Q_SCALE
    1146, // 206: D_TURNOUT
    58, // 207: V_TURNOUT
    64, // 208: end
    62482, // 209: Q_DIR
    56426, // 210: L_PACKET
    16394, // 211: Q_STOP
    64, // 212: end
];

pub fn rows() -> [u16; 213]
    ensures { result ≡ words }
{
    ROWS
}

// The code of the field in a row whose act is a and whose rest is r. Below 10 the rest is the code of a field that is free, or a jump. Acts and codes are
// numbers and no enums, and an act and a rest no struct: a row packs them, and `code_by`, `leap_by` and `number_by` speak of them one by one.
pub fn code(a: u32, r: u32) -> u32
    ensures { result ≡ code_by a r }
{
    match r {
        0..10 => free(a, r),
        10..32 | 48..52 => 10,
        32..48 => 11,
        _ => r - 52,
    }
}

fn free(a: u32, r: u32) -> u32
    ensures { result ≡ free_by a r }
{
    match a {
        0 => 7,
        2 => r,
        _ => 0,
    }
}
