//! Pseudo random numbers.
ghost use Rattle.std.specs.Prelude.{◌≡◌, ◌<◌};
ghost use Rattle.generator.specs.Draws.{next_state, state_after, drawn};
ghost use Rattle.generator.specs.Statements.{drawn_statement};

// How many states there are.
const STATES: u64 = 1 << 31;

/// The state of the generator.
#[derive(Clone, Copy)]
pub(crate) struct Draws {
    state: u32,
}

/// What is drawn for a statement.
#[derive(Clone, Copy)]
pub(crate) struct DrawnStatement {
    pub(crate) to: u32,
    pub(crate) to_shift: u32,
    pub(crate) from: u32,
    pub(crate) from_shift: u32,
    pub(crate) added: u32,
}

impl Draws {
    pub(crate) fn from_seed(seed: u32) -> Draws
        ensures { result.state ≡ seed }
    {
        Draws { state: seed }
    }

    // A number below so much.
    #[tactic(auto, unfolding(crate::specs::Draws::next_state))]
    fn draw(&mut self, below: u32) -> u32
        requires { 0 < below }
        ensures state { self.new.state ≡ next_state self.old.state }
        ensures number { result ≡ drawn self.new.state below }
    {
        let state = (u64::from(self.state) * 1_103_515_245 + 12_345) % STATES;
        self.state = state as u32;
        self.state / 65_536 % below
    }

    // The draws of a statement stand in this order.
    #[tactic(auto, unfolding(crate::specs::Draws::state_after))]
    pub(crate) fn statement(&mut self) -> DrawnStatement
        ensures state { self.new.state ≡ state_after 5 self.old.state }
        ensures statement { result ≡ drawn_statement self.old.state }
    {
        let to = self.draw(3);
        let to_shift = self.draw(5);
        let from = self.draw(3);
        let from_shift = self.draw(5);
        let added = self.draw(10);
        DrawnStatement {
            to,
            to_shift,
            from,
            from_shift,
            added,
        }
    }
}
