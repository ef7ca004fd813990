//! What references select of arrays (ISO/IEC 1539:1991, section 6.2.2).
ghost use Rattle.std.specs.Prelude.{map, List};
ghost use Rattle.tree.specs.Plain.{subscripts};
ghost use Rattle.tree.specs.View.{subscript_of, reference_of};
ghost use Rattle.meaning.specs.Dialect.{fortran90};
ghost use Rattle.meaning.specs.Value.{selector, selectors};
ghost use Rattle.array_values.specs.Answers.{Answers};
ghost use Rattle.array_values.specs.Arrays.{array_in};
ghost use Rattle.array_values.specs.Selections.{selector_in};
ghost use Rattle.array_values.specs.declared.sections.Selector.{Selector as Selector'};
ghost use Rattle.array_expressions.specs.Scopes.{store_at, selected_by};

use crate::locals::Local;
use crate::numbers::selector_of;
use crate::scope::Scope;
use array_values::{Failure, Known, Selector};
use tree::{Ref, Seq, Sub, Width};

impl Scope<'_> {
    /// The array that a reference selects: all of a name, or the part that subscripts tell.
    #[cycle(evaluation)]
    #[tactic(auto, using(crate::proofs::Weights::weight_laws))]
    pub fn selected(&self, width: Width, item: &Ref, locals: &[Local]) -> Result<Known, Failure>
        ensures { Answers array_in (selected_by width (reference_of item.now) (store_at self.now locals.now)) result }
    {
        if item.subs.is_empty() {
            return self.whole(item.name, locals);
        }
        let selectors = self.selectors(width, &item.subs, locals)?;
        self.storage
            .part(self.alloc, item.name, selectors.as_slice())
    }

    /// Subscripts with their expressions evaluated, from left to right.
    #[cycle(evaluation)]
    #[tactic(auto, using(crate::proofs::Weights::weight_laws))]
    pub fn selectors(
        &self,
        width: Width,
        subs: &Seq<Sub>,
        locals: &[Local],
    ) -> Result<Seq<Selector>, Failure>
        ensures { Answers (λ (zs : List Selector'). map selector_in zs) (selectors (fortran90 width)
            (subscripts (map subscript_of subs.now)) (store_at self.now locals.now)) result }
    {
        let mut selectors = Seq::new(self.alloc);
        for sub in subs.as_slice() {
            let selector = self.selector(width, sub, locals)?;
            selectors.push(selector)?;
        }
        Ok(selectors)
    }

    #[cycle(evaluation)]
    #[tactic(auto, using(crate::proofs::Weights::weight_laws))]
    fn selector(&self, width: Width, sub: &Sub, locals: &[Local]) -> Result<Selector, Failure>
        ensures { Answers selector_in
            (selector (fortran90 width) (subscript_of sub.now) (store_at self.now locals.now)) result }
    {
        match sub {
            Sub::One(expr) => {
                let known = self.known(width, expr, locals)?;
                let numbers = known.numbers(self.alloc)?;
                Ok(selector_of(known.extents.as_slice(), numbers))
            }
            Sub::Part(lower, upper, stride) => {
                let lower = self.number(width, lower, locals)?;
                let upper = self.number(width, upper, locals)?;
                let stride = self.number(width, stride, locals)?;
                Ok(Selector::Triplet(lower, upper, stride))
            }
        }
    }
}
