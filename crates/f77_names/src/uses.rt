//! How names stand in the statements of a program.
ghost use Rattle.std.specs.Prelude.{◌≡◌, ◌++◌, ◌∷◌, [], map, OnOk};
ghost use Rattle.tree.specs.Plain.{subscripts, expressions};
ghost use Rattle.tree.specs.View.{expression_of, subscript_of};
ghost use Rattle.tree.specs.declared.exprs.Expr.TheVariants as exprs;
ghost use Rattle.f77_grammar.specs.program.Uses as plain;
ghost use Rattle.f77_names.specs.UsesView.{role_of, listed};

use std::alloc::Global;
use tree::{Expr, Kind, Memory, Name, Ref, Seq, Sub};

/// How a name stands in a statement.
#[derive(Clone, Copy, Debug, PartialEq, Eq)]
pub enum Role {
    /// As the program's name.
    Title,
    /// In a type statement.
    Typed(Kind),
    /// With bounds for so many dimensions.
    Bounded(usize),
    /// In PARAMETER, before the `=`.
    Defined,
    /// In an expression, with so many subscripts or arguments.
    Valued(usize),
    /// As what is assigned or read into, with so many subscripts.
    Target(usize),
    /// As a DO variable.
    Counter,
}

impl Role {
    /// The name stands as the program's.
    pub fn is_title(self) -> bool
        ensures { result ≡ plain.is_title_role (role_of self) }
    {
        match self {
            Role::Title => true,
            Role::Typed(_) => false,
            Role::Bounded(_) => false,
            Role::Defined => false,
            Role::Valued(_) => false,
            Role::Target(_) => false,
            Role::Counter => false,
        }
    }
}

/// A name, and how it stands.
#[derive(Clone, Copy, Debug)]
pub struct Use {
    pub name: Name,
    pub role: Role,
}

/// The uses of names in statements, in the order of the text.
#[derive(Drop)]
pub struct Uses {
    items: Vec<Use>,
}

impl Uses {
    pub(crate) fn new(alloc: Global) -> Uses
        ensures { listed result ≡ [] }
    {
        Uses {
            items: Vec::new(alloc),
        }
    }

    /// The uses so far.
    pub fn as_slice(&self) -> &[Use]
        ensures { result.now ≡ self.now.items.items }
    {
        self.items.as_slice()
    }

    pub(crate) fn note(&mut self, name: Name, role: Role) -> Result<(), Memory>
        ensures { OnOk result (listed self.new ≡ listed self.old ++ plain.use77_of name (role_of role) ∷ []) }
    {
        self.items.push(Use { name, role })?;
        Ok(())
    }

    #[cycle(uses)]
    #[tactic(auto, using(crate::proofs::UseLaws::use_laws))]
    pub(crate) fn add_expr(&mut self, expr: &Expr) -> Result<(), Memory>
        ensures { OnOk result (listed self.new ≡ listed self.old ++ plain.uses77_in (expression_of expr.now)) }
    {
        match expr {
            Expr::Int(_) => Ok(()),
            Expr::Truth(_) => Ok(()),
            Expr::Item(item) => self.add_value(item),
            Expr::Un(_, a) => self.add_expr(a),
            Expr::Bin(_, a, b) => {
                self.add_expr(a)?;
                self.add_expr(b)
            }
            Expr::Call(_, arguments) => self.add_exprs(arguments),
            Expr::List(..) => Ok(()),
            Expr::Spread(..) => Ok(()),
            Expr::Transpose(_) => Ok(()),
            Expr::Reshape(..) => Ok(()),
            Expr::Reduce(..) => Ok(()),
        }
    }

    #[cycle(uses)]
    #[tactic(auto, using(crate::proofs::UseLaws::use_laws))]
    fn add_value(&mut self, item: &Ref) -> Result<(), Memory>
        ensures { OnOk result (listed self.new ≡ listed self.old
            ++ plain.uses77_in (expression_of (exprs.Item item.now))) }
    {
        self.note(item.name, Role::Valued(item.subs.len()))?;
        self.add_subs(&item.subs)
    }

    #[cycle(uses)]
    fn add_exprs(&mut self, exprs: &Seq<Expr>) -> Result<(), Memory>
        ensures { OnOk result (listed self.new ≡ listed self.old
            ++ plain.uses_in_arguments (expressions (map expression_of exprs.now))) }
    {
        for expr in exprs.as_slice() {
            self.add_expr(expr)?;
        }
        Ok(())
    }

    #[cycle(uses)]
    #[tactic(auto, using(crate::proofs::UseLaws::use_laws))]
    fn add_sub(&mut self, sub: &Sub) -> Result<(), Memory>
        ensures { OnOk result (listed self.new ≡ listed self.old ++ plain.uses77_in_subscript (subscript_of sub.now)) }
    {
        match sub {
            Sub::One(expr) => self.add_expr(expr),
            Sub::Part(..) => Ok(()),
        }
    }

    #[cycle(uses)]
    pub(crate) fn add_subs(&mut self, subs: &Seq<Sub>) -> Result<(), Memory>
        ensures { OnOk result (listed self.new ≡ listed self.old
            ++ plain.uses77_in_subscripts (subscripts (map subscript_of subs.now))) }
    {
        for sub in subs.as_slice() {
            self.add_sub(sub)?;
        }
        Ok(())
    }
}
