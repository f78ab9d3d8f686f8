// Which rule a value breaks at the field that is due.
ghost use Rattle.std.specs.Prelude.{◌≡◌, ◌<◌, false, ◌&&◌, ◌||◌, eqb, leb};
ghost use Rattle.format.specs.Packets.{find, etcs, ctcs};
ghost use Rattle.format.specs.Rules.{unless, known, radio_from};
ghost use Rattle.format.specs.Table.{field_at, low_of, high_of};
ghost use Rattle.format.specs.declared.Kind.TheVariants.{Unknown};
ghost use Rattle.states.specs.Machine.{verdict_of, Ranged, Directed, Judged};

use crate::rows::Rows;
use format::Kind;
use states::codes::{DIRECTION, PACKET, RADIO, TOTAL, USER};
use states::{Level, State};

// The kind of a value that is not allowed: a header rule's, or a field's.
fn forbidden(l: Level) -> Result<(), Kind>
    ensures { verdict_of result ≡ Ranged false l }
{
    match l {
        Level::Header => Err(Kind::Header),
        Level::Packet | Level::User => Err(Kind::Value),
    }
}

// Whether a value lies in the range of its field.
fn ranged(rows: &Rows, k: usize, l: Level, v: u64) -> Result<(), Kind>
    requires { k < 213 }
    ensures { verdict_of result ≡ Ranged (leb (low_of (field_at k)) v && leb v (high_of (field_at k))) l }
{
    if v < rows.low(k) {
        return forbidden(l);
    }
    if rows.high(k) < v {
        return forbidden(l);
    }
    Ok(())
}

// An NID_PACKET of the tables, or the end mark.
fn packet(v: u64) -> Result<(), Kind>
    ensures { verdict_of result ≡ unless (eqb v 255 || known (find v etcs)) Unknown }
{
    if v == 255 {
        return Ok(());
    }
    if packets::etcs(v).row == 0 {
        return Err(Kind::Unknown);
    }
    Ok(())
}

// An NID_XUSER of the tables. Apart from `packet`: of another table, and with no end mark; what both share is one test.
fn user(v: u64) -> Result<(), Kind>
    ensures { verdict_of result ≡ unless (known (find v ctcs)) Unknown }
{
    if packets::ctcs(v).row == 0 {
        return Err(Kind::Unknown);
    }
    Ok(())
}

// A Q_DIR: 0 to 2; of a packet that collides with no earlier one; of a CTCS packet, that of its ETCS-44.
fn direction(s: State, v: u64, twice: bool) -> Result<(), Kind>
    ensures { Directed s v twice result }
{
    if 2 < v {
        return Err(Kind::Value);
    }
    match s.level {
        Level::Header => Ok(()),
        Level::Packet => {
            if twice {
                return Err(Kind::Repeated);
            }
            Ok(())
        }
        Level::User => {
            if v == s.dir {
                return Ok(());
            }
            Err(Kind::Direction)
        }
    }
}

// The rule that a value breaks at the field that is due. twice: whether its packet collides with an earlier one, where it is a Q_DIR.
pub(crate) fn judge(rows: &Rows, s: State, v: u64, twice: bool) -> Result<(), Kind>
    requires { s.todo.node < 213 }
    ensures { Judged s v twice result }
{
    let c = rows.code(s.todo.node);
    if c < TOTAL {
        return Ok(());
    }
    match c {
        TOTAL => {
            if v < s.pig {
                return Err(Kind::Header);
            }
            Ok(())
        }
        RADIO => {
            if radio_number::allowed(v) {
                return Ok(());
            }
            Err(Kind::Value)
        }
        PACKET => packet(v),
        USER => user(v),
        DIRECTION => direction(s, v, twice),
        _ => ranged(rows, s.todo.node, s.level, v),
    }
}
