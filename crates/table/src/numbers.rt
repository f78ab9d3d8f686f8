// The number of the field that each row sends.
ghost use Rattle.std.specs.Prelude.{◌≡◌};
ghost use Rattle.format.specs.Table.{field_numbers, number_by};

// The number of the end mark's field: fields have numbers, as in `field_numbers` and `number_by`.
const MARK: u8 = 71;

// The field that each row of the table sends, by its number in specs/Fields.antt of `format`. At an end the number is NID_PACKET's, which is
// due there between packets (the machine never stands at a group's end), and in place of the CTCS packet NID_XUSER's.
// An array beside that of the rows: labelling alone goes by it, and whoever checks a telegram has the other on the stack.
const FIELDS: [u8; 213] = [
    10, // 0: end
    0, // 1: Q_UPDOWN
    1, // 2: M_VERSION
    2, // 3: Q_MEDIA
    3, // 4: N_PIG
    4, // 5: N_TOTAL
    5, // 6: M_DUP
    6, // 7: M_MCOUNT
    7, // 8: NID_C
    8, // 9: NID_BG
    9, // 10: Q_LINK
    10, // 11: end
    12, // 12: Q_DIR
    13, // 13: L_PACKET
    14, // 14: Q_SCALE
    16, // 15: D_LINK
    17, // 16: Q_NEWCOUNTRY
    7, // 17: NID_C
    8, // 18: NID_BG
    18, // 19: Q_LINKORIENTATION
    19, // 20: Q_LINKREACTION
    20, // 21: Q_LOCACC
    15, // 22: N_ITER
    16, // 23: D_LINK
    17, // 24: Q_NEWCOUNTRY
    7, // 25: NID_C
    8, // 26: NID_BG
    18, // 27: Q_LINKORIENTATION
    19, // 28: Q_LINKREACTION
    20, // 29: Q_LOCACC
    10, // 30: end
    10, // 31: end
    12, // 32: Q_DIR
    13, // 33: L_PACKET
    14, // 34: Q_SCALE
    21, // 35: D_GRADIENT
    22, // 36: Q_GDIR
    23, // 37: G_A
    15, // 38: N_ITER
    21, // 39: D_GRADIENT
    22, // 40: Q_GDIR
    23, // 41: G_A
    10, // 42: end
    10, // 43: end
    12, // 44: Q_DIR
    13, // 45: L_PACKET
    14, // 46: Q_SCALE
    24, // 47: D_STATIC
    25, // 48: V_STATIC
    26, // 49: Q_FRONT
    15, // 50: N_ITER
    27, // 51: NC_DIFF
    28, // 52: V_DIFF
    10, // 53: end
    15, // 54: N_ITER
    24, // 55: D_STATIC
    25, // 56: V_STATIC
    26, // 57: Q_FRONT
    15, // 58: N_ITER
    27, // 59: NC_DIFF
    28, // 60: V_DIFF
    10, // 61: end
    10, // 62: end
    10, // 63: end
    12, // 64: Q_DIR
    13, // 65: L_PACKET
    14, // 66: Q_SCALE
    29, // 67: D_LEVELTR
    30, // 68: M_LEVELTR
    31, // 69: NID_STM
    32, // 70: L_ACKLEVELTR
    15, // 71: N_ITER
    30, // 72: M_LEVELTR
    31, // 73: NID_STM
    32, // 74: L_ACKLEVELTR
    10, // 75: end
    10, // 76: end
    12, // 77: Q_DIR
    13, // 78: L_PACKET
    33, // 79: Q_RBC
    7, // 80: NID_C
    34, // 81: NID_RBC
    35, // 82: NID_RADIO
    36, // 83: Q_SLEEPSESSION
    10, // 84: end
    12, // 85: Q_DIR
    13, // 86: L_PACKET
    11, // 87: CTCS packet
    12, // 88: Q_DIR
    13, // 89: L_PACKET
    30, // 90: M_LEVELTR
    31, // 91: NID_STM
    15, // 92: N_ITER
    30, // 93: M_LEVELTR
    31, // 94: NID_STM
    10, // 95: end
    10, // 96: end
    12, // 97: Q_DIR
    13, // 98: L_PACKET
    14, // 99: Q_SCALE
    37, // 100: Q_TRACKINIT
    38, // 101: D_TRACKINIT
    10, // 102: end
    39, // 103: D_TRACKCOND
    40, // 104: L_TRACKCOND
    41, // 105: M_TRACKCOND
    15, // 106: N_ITER
    39, // 107: D_TRACKCOND
    40, // 108: L_TRACKCOND
    41, // 109: M_TRACKCOND
    10, // 110: end
    10, // 111: end
    12, // 112: Q_DIR
    13, // 113: L_PACKET
    14, // 114: Q_SCALE
    42, // 115: Q_TEXTCLASS
    43, // 116: Q_TEXTDISPLAY
    44, // 117: D_TEXTDISPLAY
    45, // 118: M_MODETEXTDISPLAY
    46, // 119: M_LEVELTEXTDISPLAY
    31, // 120: NID_STM
    47, // 121: L_TEXTDISPLAY
    48, // 122: T_TEXTDISPLAY
    45, // 123: M_MODETEXTDISPLAY
    46, // 124: M_LEVELTEXTDISPLAY
    31, // 125: NID_STM
    49, // 126: Q_TEXTCONFIRM
    50, // 127: L_TEXT
    51, // 128: X_TEXT
    10, // 129: end
    10, // 130: end
    12, // 131: Q_DIR
    13, // 132: L_PACKET
    14, // 133: Q_SCALE
    17, // 134: Q_NEWCOUNTRY
    7, // 135: NID_C
    8, // 136: NID_BG
    52, // 137: D_POSOFF
    53, // 138: Q_MPOSITION
    54, // 139: M_POSITION
    15, // 140: N_ITER
    17, // 141: Q_NEWCOUNTRY
    7, // 142: NID_C
    8, // 143: NID_BG
    52, // 144: D_POSOFF
    53, // 145: Q_MPOSITION
    54, // 146: M_POSITION
    10, // 147: end
    10, // 148: end
    12, // 149: Q_DIR
    13, // 150: L_PACKET
    14, // 151: Q_SCALE
    55, // 152: D_RBCTR
    7, // 153: NID_C
    34, // 154: NID_RBC
    35, // 155: NID_RADIO
    36, // 156: Q_SLEEPSESSION
    10, // 157: end
    12, // 158: Q_DIR
    13, // 159: L_PACKET
    56, // 160: Q_ASPECT
    10, // 161: end
    12, // 162: Q_DIR
    13, // 163: L_PACKET
    57, // 164: Q_SRSTOP
    10, // 165: end
    12, // 166: Q_DIR
    13, // 167: L_PACKET
    10, // 168: end
    12, // 169: Q_DIR
    13, // 170: L_PACKET
    14, // 171: Q_SCALE
    58, // 172: D_SIGNAL
    59, // 173: NID_SIGNAL
    60, // 174: NID_FREQUENCY
    61, // 175: L_SECTION
    15, // 176: N_ITER
    59, // 177: NID_SIGNAL
    60, // 178: NID_FREQUENCY
    61, // 179: L_SECTION
    10, // 180: end
    10, // 181: end
    12, // 182: Q_DIR
    13, // 183: L_PACKET
    14, // 184: Q_SCALE
    62, // 185: L_TSRarea
    63, // 186: D_TSR
    64, // 187: L_TSR
    26, // 188: Q_FRONT
    65, // 189: V_TSR
    15, // 190: N_ITER
    63, // 191: D_TSR
    64, // 192: L_TSR
    26, // 193: Q_FRONT
    65, // 194: V_TSR
    10, // 195: end
    10, // 196: end
    12, // 197: Q_DIR
    13, // 198: L_PACKET
    14, // 199: Q_SCALE
    66, // 200: D_STARTREVERSE
    67, // 201: L_REVERSEAREA
    10, // 202: end
    12, // 203: Q_DIR
    13, // 204: L_PACKET
    14, // 205: Q_SCALE
    68, // 206: D_TURNOUT
    69, // 207: V_TURNOUT
    10, // 208: end
    12, // 209: Q_DIR
    13, // 210: L_PACKET
    70, // 211: Q_STOP
    10, // 212: end
];

pub fn fields() -> [u8; 213]
    ensures { result ≡ field_numbers }
{
    FIELDS
}

// The number of the field that is due in a row whose act is a and whose number among the fields is f, where it holds v. Where a packet could begin,
// 255 is no packet but the end mark, a field of its own.
pub fn named(a: u32, v: u64, f: u8) -> u8
    ensures { result ≡ number_by a v f }
{
    if a == 0 && v == 255 { MARK } else { f }
}
