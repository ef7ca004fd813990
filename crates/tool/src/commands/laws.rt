//! Laws of the words of commands. A law is a function without a body: its contract is what holds.
ghost use Rattle.std.specs.Prelude.{◌≡◌, ◌≤◌, ℕ, List, ◌∷◌, ◌++◌, Some, codes, length};
ghost use Rattle.tool.specs.declared.commands.commands.Request.{Request};
ghost use Rattle.tool.specs.commands.Command.{request_of};

/// `--steps=N` means what `--steps N` means, wherever it stands and whatever follows.
pub fn number_attached_or_apart()
    ensures { (front words : List (List ℕ)) (number : List ℕ)
        → request_of (front ++ (codes "--steps=" ++ number) ∷ words)
        ≡ request_of (front ++ codes "--steps" ∷ number ∷ words) }
{}

/// The order of two options doesn't matter, wherever they stand and whatever follows.
pub fn options_in_any_order()
    ensures final_steps { (front words : List (List ℕ)) (number : List ℕ)
        → request_of (front ++ codes "--final" ∷ codes "--steps" ∷ number ∷ words)
        ≡ request_of (front ++ codes "--steps" ∷ number ∷ codes "--final" ∷ words) }
    ensures wide_steps { (front words : List (List ℕ)) (number : List ℕ)
        → request_of (front ++ codes "--wide" ∷ codes "--steps" ∷ number ∷ words)
        ≡ request_of (front ++ codes "--steps" ∷ number ∷ codes "--wide" ∷ words) }
    ensures wide_final { (front words : List (List ℕ))
        → request_of (front ++ codes "--wide" ∷ codes "--final" ∷ words)
        ≡ request_of (front ++ codes "--final" ∷ codes "--wide" ∷ words) }
{}

/// Words that ask for something are five at most.
pub fn at_most_five_words()
    ensures { (words : List (List ℕ)) (request : Request) → request_of words ≡ Some request → length words ≤ 5 }
{}
