//! How names stand in expressions, and which.
ghost use Rattle.std.specs.Prelude.{◌≡◌, ◌++◌, ◌∷◌, [], map, OnOk};
ghost use Rattle.std.specs.List.{flat_map};
ghost use Rattle.meaning.specs.Reads.{names_in, names_in_subscript};
ghost use Rattle.tree.specs.View.{expression_of, subscript_of, reference_of, loop_of};
ghost use Rattle.rewrite.specs.Names.{use_of, uses_in, uses_in_subscript, uses_in_subscripts, is_way};
ghost use Rattle.rewrite.specs.NamesAlong.{uses_in_loop, names_in_loop, names_in_reference};

use std::alloc::Global;
use tree::{Expr, Memory, Name, Ref, Seq, Sub, Turn};

/// Whether a name is read or written where it stands.
#[derive(Clone, Copy, Debug, PartialEq, Eq)]
pub enum Way {
    Reads,
    Writes,
}

impl Way {
    /// Whether it is this way.
    pub fn is(self, way: Way) -> bool
        ensures { result ≡ is_way self way }
    {
        match self {
            Way::Reads => match way {
                Way::Reads => true,
                Way::Writes => false,
            },
            Way::Writes => match way {
                Way::Reads => false,
                Way::Writes => true,
            },
        }
    }
}

/// A name, and how it stands.
#[derive(Clone, Copy, Debug)]
pub struct Use {
    pub name: Name,
    pub way: Way,
}

/// The uses of names, in the order of the text; and all names that stand there, those of the variables of constructors'
/// loops too, where their loops name them.
#[derive(Drop)]
pub struct Uses {
    pub list: Seq<Use>,
    pub names: Seq<Name>,
}

impl Uses {
    /// No use, and no name.
    pub fn new(alloc: Global) -> Uses
        ensures uses { result.list ≡ [] }
        ensures names { result.names ≡ [] }
    {
        Uses {
            list: Seq::new(alloc),
            names: Seq::new(alloc),
        }
    }

    /// Adds a name that stands so.
    pub fn note(&mut self, name: Name, way: Way) -> Result<(), Memory>
        ensures uses { OnOk result (self.new.list ≡ self.old.list ++ use_of name way ∷ []) }
        ensures names { OnOk result (self.new.names ≡ self.old.names ++ name ∷ []) }
    {
        self.list.push(Use { name, way })?;
        self.names.push(name)?;
        Ok(())
    }

    /// Adds those in an expression, where each name is read.
    #[cycle(uses)]
    #[tactic(auto, using(crate::proofs::UseLaws::use_laws, crate::proofs::StandingLaws::standing_laws))]
    pub fn add_expr(&mut self, expr: &Expr) -> Result<(), Memory>
        ensures uses { OnOk result (self.new.list ≡ self.old.list ++ uses_in (expression_of expr.now)) }
        ensures names { OnOk result (self.new.names ≡ self.old.names ++ names_in (expression_of expr.now)) }
    {
        match expr {
            Expr::Int(_) => Ok(()),
            Expr::Truth(_) => Ok(()),
            Expr::Item(item) => self.add_value(item),
            Expr::Un(_, a) => self.add_expr(a),
            Expr::Bin(_, a, b) => {
                self.add_expr(a)?;
                self.add_expr(b)
            }
            Expr::Call(_, arguments) => self.add_exprs(arguments),
            Expr::List(values, turns) => {
                self.add_exprs(values)?;
                self.add_turns(turns)
            }
            Expr::Spread(array, _, extent) => {
                self.add_expr(array)?;
                self.add_expr(extent)
            }
            Expr::Transpose(array) => self.add_expr(array),
            Expr::Reshape(array, extents) => {
                self.add_expr(array)?;
                self.add_exprs(extents)
            }
            Expr::Reduce(_, array) => self.add_expr(array),
        }
    }

    /// Adds those in a reference whose value is read.
    #[cycle(uses)]
    #[tactic(auto, using(crate::proofs::UseLaws::use_laws, crate::proofs::StandingLaws::standing_laws))]
    pub fn add_value(&mut self, item: &Ref) -> Result<(), Memory>
        ensures uses { OnOk result (self.new.list ≡ self.old.list
            ++ use_of (reference_of item.now).name Way.Reads ∷ uses_in_subscripts (reference_of item.now).subscripts) }
        ensures names { OnOk result (self.new.names ≡ self.old.names ++ names_in_reference (reference_of item.now)) }
    {
        self.note(item.name, Way::Reads)?;
        self.add_subs(&item.subs)
    }

    /// Adds those in expressions.
    #[cycle(uses)]
    pub fn add_exprs(&mut self, exprs: &Seq<Expr>) -> Result<(), Memory>
        ensures uses { OnOk result (self.new.list ≡ self.old.list ++ flat_map uses_in (map expression_of exprs.now)) }
        ensures names { OnOk result (self.new.names ≡ self.old.names
            ++ flat_map names_in (map expression_of exprs.now)) }
    {
        for expr in exprs.as_slice() {
            self.add_expr(expr)?;
        }
        Ok(())
    }

    #[cycle(uses)]
    fn add_turns(&mut self, turns: &Seq<Turn>) -> Result<(), Memory>
        ensures uses { OnOk result (self.new.list ≡ self.old.list ++ flat_map uses_in_loop (map loop_of turns.now)) }
        ensures names { OnOk result (self.new.names ≡ self.old.names
            ++ flat_map names_in_loop (map loop_of turns.now)) }
    {
        for turn in turns.as_slice() {
            self.add_turn(turn)?;
        }
        Ok(())
    }

    #[cycle(uses)]
    #[tactic(auto, using(crate::proofs::UseLaws::use_laws, crate::proofs::StandingLaws::standing_laws))]
    fn add_turn(&mut self, turn: &Turn) -> Result<(), Memory>
        ensures uses { OnOk result (self.new.list ≡ self.old.list ++ uses_in_loop (loop_of turn.now)) }
        ensures names { OnOk result (self.new.names ≡ self.old.names ++ names_in_loop (loop_of turn.now)) }
    {
        self.names.push(turn.var)?;
        self.add_expr(&turn.first)?;
        self.add_expr(&turn.last)
    }

    #[cycle(uses)]
    #[tactic(auto, using(crate::proofs::UseLaws::use_laws, crate::proofs::StandingLaws::standing_laws))]
    fn add_sub(&mut self, sub: &Sub) -> Result<(), Memory>
        ensures uses { OnOk result (self.new.list ≡ self.old.list ++ uses_in_subscript (subscript_of sub.now)) }
        ensures names { OnOk result (self.new.names ≡ self.old.names ++ names_in_subscript (subscript_of sub.now)) }
    {
        match sub {
            Sub::One(expr) => self.add_expr(expr),
            Sub::Part(lower, upper, stride) => {
                self.add_expr(lower)?;
                self.add_expr(upper)?;
                self.add_expr(stride)
            }
        }
    }

    /// Adds those in subscripts.
    #[cycle(uses)]
    pub fn add_subs(&mut self, subs: &Seq<Sub>) -> Result<(), Memory>
        ensures uses { OnOk result (self.new.list ≡ self.old.list
            ++ flat_map uses_in_subscript (map subscript_of subs.now)) }
        ensures names { OnOk result (self.new.names ≡ self.old.names
            ++ flat_map names_in_subscript (map subscript_of subs.now)) }
    {
        for sub in subs.as_slice() {
            self.add_sub(sub)?;
        }
        Ok(())
    }
}
