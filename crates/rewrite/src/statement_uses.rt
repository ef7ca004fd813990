//! How names stand in statements and in input and output lists.
ghost use Rattle.std.specs.Prelude.{◌≡◌, ◌++◌, map, OnOk};
ghost use Rattle.std.specs.List.{flat_map};
ghost use Rattle.tree.specs.View.{expression_of, reference_of, item_of, statement_of, tested_of, block_of};
ghost use Rattle.rewrite.specs.Names.{uses_in_target, uses_in_variable, uses_in_control, uses_in_input};
ghost use Rattle.rewrite.specs.Names.{uses_in_output, uses_in_statement, uses_in_block};
ghost use Rattle.rewrite.specs.NamesAlong.{uses_in_arm, names_in_control, names_in_reference};

use crate::uses::{Uses, Way};
use tree::{Arm, Block, Expr, Item, Memory, Name, Ref, Seq, Stmt};

impl Uses {
    /// Adds those in what is assigned or read into.
    #[tactic(auto, using(crate::proofs::UseLaws::use_laws, crate::proofs::StandingLaws::standing_laws))]
    pub fn add_target(&mut self, target: &Ref) -> Result<(), Memory>
        ensures uses { OnOk result (self.new.list ≡ self.old.list ++ uses_in_target (reference_of target.now)) }
        ensures names { OnOk result (self.new.names ≡ self.old.names ++ names_in_reference (reference_of target.now)) }
    {
        self.note(target.name, Way::Writes)?;
        self.add_subs(&target.subs)
    }

    #[tactic(auto, using(crate::proofs::StatementUseLaws::variable_laws))]
    fn add_variable(&mut self, expr: &Expr) -> Result<(), Memory>
        ensures { OnOk result (self.new.list ≡ self.old.list ++ uses_in_variable (expression_of expr.now)) }
    {
        match expr {
            Expr::Item(target) => self.add_target(target),
            Expr::Int(_) => self.add_expr(expr),
            Expr::Truth(_) => self.add_expr(expr),
            Expr::Un(..) => self.add_expr(expr),
            Expr::Bin(..) => self.add_expr(expr),
            Expr::Call(..) => self.add_expr(expr),
            Expr::List(..) => self.add_expr(expr),
            Expr::Spread(..) => self.add_expr(expr),
            Expr::Transpose(_) => self.add_expr(expr),
            Expr::Reshape(..) => self.add_expr(expr),
            Expr::Reduce(..) => self.add_expr(expr),
        }
    }

    /// Adds those in the control of a DO or of an implied DO list: its variable, its bounds and its step.
    #[tactic(auto, using(crate::proofs::UseLaws::use_laws, crate::proofs::StandingLaws::standing_laws))]
    pub fn add_control(
        &mut self,
        variable: Name,
        first: &Expr,
        last: &Expr,
        step: &Expr,
    ) -> Result<(), Memory>
        ensures uses { OnOk result (self.new.list ≡ self.old.list ++ uses_in_control variable
            (expression_of first.now) (expression_of last.now) (expression_of step.now)) }
        ensures names { OnOk result (self.new.names ≡ self.old.names ++ names_in_control variable
            (expression_of first.now) (expression_of last.now) (expression_of step.now)) }
    {
        self.note(variable, Way::Writes)?;
        self.add_expr(first)?;
        self.add_expr(last)?;
        self.add_expr(step)
    }

    #[cycle(inputs)]
    #[tactic(auto, using(crate::proofs::StatementUseLaws::item_laws))]
    fn add_input(&mut self, item: &Item) -> Result<(), Memory>
        ensures { OnOk result (self.new.list ≡ self.old.list ++ uses_in_input (item_of item.now)) }
    {
        match item {
            Item::One(expr) => self.add_variable(expr),
            Item::Text(_) => Ok(()),
            Item::Turns(list, variable, first, last, step) => {
                self.add_inputs(list)?;
                self.add_control(*variable, first, last, step)
            }
        }
    }

    #[cycle(inputs)]
    fn add_inputs(&mut self, list: &Seq<Item>) -> Result<(), Memory>
        ensures { OnOk result (self.new.list ≡ self.old.list ++ flat_map uses_in_input (map item_of list.now)) }
    {
        for item in list.as_slice() {
            self.add_input(item)?;
        }
        Ok(())
    }

    #[cycle(outputs)]
    #[tactic(auto, using(crate::proofs::StatementUseLaws::item_laws))]
    fn add_output(&mut self, item: &Item) -> Result<(), Memory>
        ensures { OnOk result (self.new.list ≡ self.old.list ++ uses_in_output (item_of item.now)) }
    {
        match item {
            Item::One(expr) => self.add_expr(expr),
            Item::Text(_) => Ok(()),
            Item::Turns(list, variable, first, last, step) => {
                self.add_outputs(list)?;
                self.add_control(*variable, first, last, step)
            }
        }
    }

    #[cycle(outputs)]
    fn add_outputs(&mut self, list: &Seq<Item>) -> Result<(), Memory>
        ensures { OnOk result (self.new.list ≡ self.old.list ++ flat_map uses_in_output (map item_of list.now)) }
    {
        for item in list.as_slice() {
            self.add_output(item)?;
        }
        Ok(())
    }

    #[cycle(statements)]
    #[tactic(auto, using(crate::proofs::StatementUseLaws::statement_laws))]
    fn add_statement(&mut self, stmt: &Stmt) -> Result<(), Memory>
        ensures { OnOk result (self.new.list ≡ self.old.list ++ uses_in_statement (statement_of stmt.now)) }
    {
        match stmt {
            Stmt::Assign { left, right, .. } => {
                self.add_target(left)?;
                self.add_expr(right)
            }
            Stmt::Masked {
                mask,
                left,
                right,
                ..
            } => {
                self.add_expr(mask)?;
                self.add_target(left)?;
                self.add_expr(right)
            }
            Stmt::If { arms, other, .. } => {
                self.add_arms(arms)?;
                self.add_block(other)
            }
            Stmt::Do {
                var,
                first,
                last,
                step,
                body,
                ..
            } => {
                self.add_control(*var, first, last, step)?;
                self.add_block(body)
            }
            Stmt::Label { .. } => Ok(()),
            Stmt::Go { .. } => Ok(()),
            Stmt::Stop { .. } => Ok(()),
            Stmt::Read { items, .. } => self.add_inputs(items),
            Stmt::Print { items, .. } => self.add_outputs(items),
            Stmt::Allocate { name, extents, .. } => {
                self.note(*name, Way::Writes)?;
                self.add_exprs(extents)
            }
            Stmt::Deallocate { name, .. } => self.note(*name, Way::Writes),
        }
    }

    #[cycle(statements)]
    #[tactic(auto, using(crate::proofs::StatementUseLaws::statement_laws))]
    fn add_arm(&mut self, arm: &Arm) -> Result<(), Memory>
        ensures { OnOk result (self.new.list ≡ self.old.list ++ uses_in_arm (tested_of arm.now)) }
    {
        self.add_expr(&arm.test)?;
        self.add_block(&arm.body)
    }

    #[cycle(statements)]
    fn add_arms(&mut self, arms: &Seq<Arm>) -> Result<(), Memory>
        ensures { OnOk result (self.new.list ≡ self.old.list ++ flat_map uses_in_arm (map tested_of arms.now)) }
    {
        for arm in arms.as_slice() {
            self.add_arm(arm)?;
        }
        Ok(())
    }

    #[cycle(statements)]
    fn add_statements(&mut self, stmts: &Seq<Stmt>) -> Result<(), Memory>
        ensures { OnOk result (self.new.list ≡ self.old.list
            ++ flat_map uses_in_statement (map statement_of stmts.now)) }
    {
        for stmt in stmts.as_slice() {
            self.add_statement(stmt)?;
        }
        Ok(())
    }

    /// Adds the uses in a block.
    #[cycle(statements)]
    #[tactic(auto, using(crate::proofs::StatementUseLaws::block_laws))]
    pub fn add_block(&mut self, block: &Block) -> Result<(), Memory>
        ensures { OnOk result (self.new.list ≡ self.old.list ++ uses_in_block (block_of block.now)) }
    {
        self.add_statements(&block.stmts)
    }
}
