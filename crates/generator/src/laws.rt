//! Laws of decks. A law is a function without a body: its contract is what holds.
ghost use Rattle.std.specs.Prelude.{◌≡◌, codes, ◌++◌};
ghost use Rattle.generator.specs.Decks.{deck_of};

/// The deck of one nest, and that of two.
pub fn worked_decks()
    ensures one { deck_of 1 ≡ codes "      INTEGER A(200), B(200), C(200)\n"
        ++ codes "      DO 11 I = 1, 100\n"
        ++ codes "      C(I+3) = A(I+0) + 1\n"
        ++ codes "      C(I+0) = A(I+2) + 6\n"
        ++ codes "   11 CONTINUE\n"
        ++ codes "      PRINT *, A(100), B(100), C(100)\n"
        ++ codes "      END\n" }
    ensures two { deck_of 2 ≡ codes "      INTEGER A(200), B(200), C(200)\n"
        ++ codes "      DO 11 I = 1, 100\n"
        ++ codes "      C(I+2) = A(I+4) + 7\n"
        ++ codes "      C(I+1) = B(I+2) + 1\n"
        ++ codes "   11 CONTINUE\n"
        ++ codes "      DO 12 I = 1, 100\n"
        ++ codes "      B(I+1) = B(I+3) + 5\n"
        ++ codes "      C(I+1) = A(I+4) + 3\n"
        ++ codes "   12 CONTINUE\n"
        ++ codes "      PRINT *, A(100), B(100), C(100)\n"
        ++ codes "      END\n" }
{}
