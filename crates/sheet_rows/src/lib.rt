// What the rows of a sheet are made of: what each begins with, and its value, read and put.
#![tactic(auto)]

ghost use Rattle.std.specs.Prelude.{◌≡◌};
ghost use Rattle.sheet.specs.Rows.{labels, starts};

mod table;
mod value;

pub use table::RowLabels;
pub use value::{put_value, value_at};

// What each row begins with, for all 72 fields by number, as one text, and where each begins in it. specs/Fields.antt of the crate format
// spells the names; the checker computes that these are the same letters.

const LABELS: [u8; 886] =
    *b"Q_UPDOWN,1,M_VERSION,7,Q_MEDIA,1,N_PIG,3,N_TOTAL,3,M_DUP,2,M_MCOUNT,8,NID_C,10,NID_BG,14,Q_LINK,1,NID_PACKET,8,\
    NID_XUSER,9,Q_DIR,2,L_PACKET,13,Q_SCALE,2,N_ITER,5,D_LINK,15,Q_NEWCOUNTRY,1,Q_LINKORIENTATION,1,Q_LINKREACTION,2,\
    Q_LOCACC,6,D_GRADIENT,15,Q_GDIR,1,G_A,8,D_STATIC,15,V_STATIC,7,Q_FRONT,1,NC_DIFF,4,V_DIFF,7,D_LEVELTR,15,M_LEVELTR,3,\
    NID_STM,8,L_ACKLEVELTR,15,Q_RBC,1,NID_RBC,14,NID_RADIO,64,Q_SLEEPSESSION,1,Q_TRACKINIT,1,D_TRACKINIT,15,D_TRACKCOND,15,\
    L_TRACKCOND,15,M_TRACKCOND,4,Q_TEXTCLASS,2,Q_TEXTDISPLAY,1,D_TEXTDISPLAY,15,M_MODETEXTDISPLAY,4,M_LEVELTEXTDISPLAY,3,\
    L_TEXTDISPLAY,15,T_TEXTDISPLAY,10,Q_TEXTCONFIRM,2,L_TEXT,8,X_TEXT,8,D_POSOFF,15,Q_MPOSITION,1,M_POSITION,20,D_RBCTR,15,\
    Q_ASPECT,1,Q_SRSTOP,1,D_SIGNAL,15,NID_SIGNAL,4,NID_FREQUENCY,5,L_SECTION,15,L_TSRarea,15,D_TSR,15,L_TSR,15,V_TSR,7,\
    D_STARTREVERSE,15,L_REVERSEAREA,15,D_TURNOUT,15,V_TURNOUT,7,Q_STOP,1,END,8,";

const STARTS: [u16; 73] = [
    0, 11, 23, 33, 41, 51, 59, 70, 79, 89, 98, 111, 123, 131, 143, 153, 162, 172, 187, 207, 224,
    235, 249, 258, 264, 276, 287, 297, 307, 316, 329, 341, 351, 367, 375, 386, 399, 416, 430, 445,
    460, 475, 489, 503, 519, 536, 556, 577, 594, 611, 627, 636, 645, 657, 671, 685, 696, 707, 718,
    730, 743, 759, 772, 785, 794, 803, 811, 829, 846, 859, 871, 880, 886,
];

// The labels of all rows, one behind the other.
pub fn labels() -> [u8; 886]
    ensures { result ≡ labels }
{
    LABELS
}

// Where each begins, and where the last ends.
pub fn starts() -> [u16; 73]
    ensures { result ≡ starts }
{
    STARTS
}
