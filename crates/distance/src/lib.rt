// Distances: steps of a scale and decimetres are two quantities. Their numbers are private here, so that one is added to the other
// nowhere else; they are converted by functions that know the packet's Q_SCALE.
#![tactic(auto)]

ghost use Rattle.std.specs.Prelude.{◌≡◌, ◌<◌};
ghost use Rattle.distance.specs.Steps.{step, steps};
ghost use Rattle.distance.specs.Distance.{number_of, scaled_by, in_decimetres, in_steps, whole_steps, whole_metres};

// The scale of a packet: steps of 10 cm, of 1 m or of 10 m.
#[derive(Clone, Copy)]
pub enum Scale {
    Tenths,
    Metres,
    Tens,
}

// So many steps of a scale.
#[derive(Clone, Copy)]
pub struct Steps(u32);

// So many decimetres. No function makes them of a number or gives their number: they come of steps at a scale, and go back to steps.
#[derive(Clone, Copy)]
pub struct Decimetres(u64);

impl Scale {
    // Q_SCALE 0, 1, 2. No TryFrom: it would be no plainer, with an error type that says no more than None.
    #[tactic(auto, unfolding(crate::specs::Distance::scaled_by))]
    pub fn of(q: u64) -> Option<Scale>
        ensures { result ≡ scaled_by q }
    {
        match q {
            0 => Some(Scale::Tenths),
            1 => Some(Scale::Metres),
            2 => Some(Scale::Tens),
            _ => None,
        }
    }

    // How many decimetres a step of this scale is.
    pub fn step(self) -> u64
        ensures { result ≡ step (number_of self) }
    {
        match self {
            Scale::Tenths => 1,
            Scale::Metres => 10,
            Scale::Tens => 100,
        }
    }
}

impl Steps {
    // No From, here and below: no plainer, as into would not say in words which quantity a number becomes.
    pub fn new(number: u32) -> Self
        ensures { result.0 ≡ number }
    {
        Steps(number)
    }

    pub fn number(self) -> u32
        ensures { result ≡ self.0 }
    {
        self.0
    }

    // How many decimetres these steps are at a packet's scale.
    pub fn decimetres(self, q: Scale) -> Decimetres
        ensures { result.0 ≡ in_decimetres q self.0 }
    {
        Decimetres(q.step() * self.0 as u64)
    }

    // Whether these steps of a packet's scale are a whole number of metres that fits w bits.
    pub fn whole_metres(self, q: Scale, w: usize) -> bool
        ensures { result ≡ whole_metres w (in_decimetres q self.0) }
    {
        let d = self.decimetres(q);
        let m = d.metres();
        if d.0 != 10 * m {
            return false;
        }
        bits::fits(m, w)
    }
}

impl Decimetres {
    // How many whole metres these decimetres are: the rest of a metre is left out.
    pub fn metres(self) -> u64
        ensures { result ≡ steps 1 self.0 }
    {
        let d = self.0;
        d / 10
    }

    // How many steps of a packet's scale these decimetres are. Not, where that is no whole number or is too large.
    pub fn steps(self, q: Scale) -> Option<Steps>
        ensures { result ≡ in_steps q self.0 }
    {
        whole(self.0, q.step())
    }
}

// How many steps of step decimetres d are.
fn whole(d: u64, step: u64) -> Option<Steps>
    requires { 0 < step }
    ensures { result ≡ whole_steps step d }
{
    if d % step != 0 {
        return None;
    }
    u32::try_from(d / step).ok().map(Steps)
}
