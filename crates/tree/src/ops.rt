//! Kinds, values, faults, operators and functions.
ghost use Rattle.std.specs.Prelude.{◌≡◌, ◌↔◌, IsTrue, IsErrOf, IfErr, IfOk, IfSome, MatchOption, find, pos, negsuc};
ghost use Rattle.std.specs.Prelude.{◌<ℤ◌};
ghost use Rattle.tree.specs.Operators.{apply, on_numbers};
ghost use Rattle.tree.specs.OperationFaults.{suits, exact, LeavesRange, DividesByZero, IsOperationFault, kind_of};
ghost use Rattle.tree.specs.Operators.{as_number, as_truth};
ghost use Rattle.tree.specs.OperatorTable.{spelling77_of, spelling90_of, is_spelled, IsSpelled};
ghost use Rattle.tree.specs.OperatorTable.{level_of, left_least, right_least, stands_between, takes_sign};
ghost use Rattle.tree.specs.OperatorTable.{is_relation, operand_kind, result_kind_of};

/// The kind of a variable, a constant or an expression.
#[derive(Clone, Copy, Debug, PartialEq, Eq)]
pub enum Kind {
    Integer,
    Logical,
}

/// The value of an expression. A number is exact in 128 bits.
#[derive(Clone, Copy, Debug, PartialEq, Eq)]
pub enum Value {
    Int(i128),
    Truth(bool),
}

impl Value {
    /// The number; a truth value faults as `Shape`.
    pub fn as_number(self) -> Result<i128, Fault>
        ensures { result ≡ as_number self }
    {
        match self {
            Value::Int(number) => Ok(number),
            Value::Truth(_) => Err(Fault::Shape),
        }
    }

    /// The truth value; a number faults as `Shape`.
    pub fn as_truth(self) -> Result<bool, Fault>
        ensures { result ≡ as_truth self }
    {
        match self {
            Value::Int(_) => Err(Fault::Shape),
            Value::Truth(truth) => Ok(truth),
        }
    }
}

/// What stops a run.
#[derive(Clone, Copy, Debug, PartialEq, Eq)]
pub enum Fault {
    Overflow,
    ZeroDivide,
    Bounds,
    ZeroStep,
    TripCount,
    InputEnd,
    InputForm,
    Shape,
    Allocated,
}

/// The operators (ANSI X3.9-1978, sections 6.1, 6.3 and 6.4).
#[derive(Clone, Copy, Debug, PartialEq, Eq)]
pub enum Op {
    Pow,
    Mul,
    Div,
    Neg,
    Add,
    Sub,
    Lt,
    Le,
    Eq,
    Ne,
    Gt,
    Ge,
    Not,
    And,
    Or,
    Eqv,
    Neqv,
}

// The operator table, one row an operator: its spelling in FORTRAN 77 and in Fortran 90, its level and the side to
// which it groups, what it takes and the kind that it gives, and its value at its operands. Each column has a rule.
macro_rules! operator_table {
    ($column:ident $($input:tt)*) => {
        operator_table! { @$column ($($input)*)
            Pow ["**" "**"] [9 right] [numbers Integer] (x, y) power(x, y);
            Mul ["*" "*"] [8 left] [numbers Integer] (x, y) within_range(x.checked_mul(y));
            Div ["/" "/"] [8 left] [numbers Integer] (x, y) quotient(x, y);
            Neg ["-" "-"] [7 left] [numbers Integer] (x) within_range(x.checked_neg());
            Add ["+" "+"] [7 left] [numbers Integer] (x, y) within_range(x.checked_add(y));
            Sub ["-" "-"] [7 left] [numbers Integer] (x, y) within_range(x.checked_sub(y));
            Lt [".LT." "<"] [6 neither] [numbers Logical] (x, y) Ok(Value::Truth(x < y));
            Le [".LE." "<="] [6 neither] [numbers Logical] (x, y) Ok(Value::Truth(x <= y));
            Eq [".EQ." "=="] [6 neither] [numbers Logical] (x, y) Ok(Value::Truth(x == y));
            Ne [".NE." "/="] [6 neither] [numbers Logical] (x, y) Ok(Value::Truth(x != y));
            Gt [".GT." ">"] [6 neither] [numbers Logical] (x, y) Ok(Value::Truth(x > y));
            Ge [".GE." ">="] [6 neither] [numbers Logical] (x, y) Ok(Value::Truth(x >= y));
            Not [".NOT." ".NOT."] [5 left] [truths Logical] (x) Ok(Value::Truth(!x));
            And [".AND." ".AND."] [4 left] [truths Logical] (x, y) Ok(Value::Truth(x && y));
            Or [".OR." ".OR."] [3 left] [truths Logical] (x, y) Ok(Value::Truth(x || y));
            Eqv [".EQV." ".EQV."] [2 left] [truths Logical] (x, y) Ok(Value::Truth(x == y));
            Neqv [".NEQV." ".NEQV."] [2 left] [truths Logical] (x, y) Ok(Value::Truth(x != y));
        }
    };
    (@all () $($op:ident $spelled:tt $groups:tt $kinds:tt $at:tt $value:expr;)*) => {
        [$(Op::$op),*]
    };
    (@spell77 ($o:tt) $($op:ident [$old:literal $new:literal] $groups:tt $kinds:tt $at:tt $value:expr;)*) => {
        match $o {
            $(Op::$op => $old,)*
        }
    };
    (@spell90 ($o:tt) $($op:ident [$old:literal $new:literal] $groups:tt $kinds:tt $at:tt $value:expr;)*) => {
        match $o {
            $(Op::$op => $new,)*
        }
    };
    (@level ($o:tt) $($op:ident $spelled:tt [$level:literal $side:ident] $kinds:tt $at:tt $value:expr;)*) => {
        match $o {
            $(Op::$op => $level,)*
        }
    };
    (@left ($o:tt) $($op:ident $spelled:tt [$level:literal $side:ident] $kinds:tt $at:tt $value:expr;)*) => {
        match $o {
            $(Op::$op => operator_table!(@left_least $side $level),)*
        }
    };
    (@right ($o:tt) $($op:ident $spelled:tt [$level:literal $side:ident] $kinds:tt $at:tt $value:expr;)*) => {
        match $o {
            $(Op::$op => operator_table!(@right_least $side $level),)*
        }
    };
    (@operands ($o:tt) $($op:ident $spelled:tt $groups:tt [$operands:ident $kind:ident] $at:tt $value:expr;)*) => {
        match $o {
            $(Op::$op => operator_table!(@kind_of $operands),)*
        }
    };
    (@result ($o:tt) $($op:ident $spelled:tt $groups:tt [$operands:ident $kind:ident] $at:tt $value:expr;)*) => {
        match $o {
            $(Op::$op => Kind::$kind,)*
        }
    };
    (@relation ($o:tt) $($op:ident $spelled:tt $groups:tt [$operands:ident $kind:ident] $at:tt $value:expr;)*) => {
        match $o {
            $(Op::$op => operator_table!(@compares $operands $kind),)*
        }
    };
    (@sign ($o:tt) $($op:ident $spelled:tt $groups:tt [$operands:ident $kind:ident] $at:tt $value:expr;)*) => {
        match $o {
            $(Op::$op => operator_table!(@takes_numbers $operands),)*
        }
    };
    (@between ($o:tt) $($op:ident $spelled:tt $groups:tt $kinds:tt $at:tt $value:expr;)*) => {
        match $o {
            $(Op::$op => operator_table!(@are_two $at),)*
        }
    };
    (@value ($o:tt $a:tt $b:tt) $($op:ident $s:tt $groups:tt [$operands:ident $kind:ident] $at:tt $value:expr;)*) => {
        match $o {
            $(Op::$op => operator_table!(@$operands $a $b $at $value),)*
        }
    };
    (@left_least left $level:literal) => {
        $level
    };
    (@left_least $side:ident $level:literal) => {
        $level + 1
    };
    (@right_least right $level:literal) => {
        $level
    };
    (@right_least $side:ident $level:literal) => {
        $level + 1
    };
    (@kind_of numbers) => {
        Kind::Integer
    };
    (@kind_of truths) => {
        Kind::Logical
    };
    (@takes_numbers numbers) => {
        true
    };
    (@takes_numbers truths) => {
        false
    };
    (@compares numbers Logical) => {
        true
    };
    (@compares $operands:ident $kind:ident) => {
        false
    };
    (@are_two ($x:ident, $y:ident)) => {
        true
    };
    (@are_two ($x:ident)) => {
        false
    };
    (@numbers $a:tt $b:tt ($x:ident, $y:ident) $value:expr) => {
        match ($a, $b) {
            (Value::Int($x), Value::Int($y)) => $value,
            _ => Err(Fault::Shape),
        }
    };
    (@numbers $a:tt $b:tt ($x:ident) $value:expr) => {
        match $a {
            Value::Int($x) => $value,
            Value::Truth(_) => Err(Fault::Shape),
        }
    };
    (@truths $a:tt $b:tt ($x:ident, $y:ident) $value:expr) => {
        match ($a, $b) {
            (Value::Truth($x), Value::Truth($y)) => $value,
            _ => Err(Fault::Shape),
        }
    };
    (@truths $a:tt $b:tt ($x:ident) $value:expr) => {
        match $a {
            Value::Truth($x) => $value,
            Value::Int(_) => Err(Fault::Shape),
        }
    };
}

// A number that was exact, or nothing where it was outside 128 bits.
pub(crate) fn within_range(exact: Option<i128>) -> Result<Value, Fault>
    ensures { MatchOption exact (result ≡ Err Fault.Overflow) (λ z. result ≡ Ok (Value.Int z)) }
{
    exact.map(Value::Int).ok_or(Fault::Overflow)
}

#[tactic(auto, using(crate::proofs::Exact::exact))]
fn quotient(a: i128, b: i128) -> Result<Value, Fault>
    ensures { result ≡ on_numbers Op.Div a b }
{
    if b == 0 {
        return Err(Fault::ZeroDivide);
    }
    within_range(a.checked_div(b))
}

// A huge power is outside 128 bits, but for those of 0, 1 and -1.
#[tactic(auto, using(crate::proofs::Exact::exact, crate::proofs::Powers::powers))]
fn power(a: i128, b: i128) -> Result<Value, Fault>
    ensures { result ≡ on_numbers Op.Pow a b }
{
    if b < 0 {
        return inverse_power(a, b);
    }
    if b < 128 {
        return within_range(a.checked_pow(b as u32));
    }
    match a {
        0 => Ok(Value::Int(0)),
        1 => Ok(Value::Int(1)),
        -1 => power_of_minus_one(b),
        _ => Err(Fault::Overflow),
    }
}

// One divided by a power.
#[tactic(auto, using(crate::proofs::Powers::powers))]
fn inverse_power(a: i128, b: i128) -> Result<Value, Fault>
    requires { b <ℤ pos 0 }
    ensures { result ≡ on_numbers Op.Pow a b }
{
    match a {
        0 => Err(Fault::ZeroDivide),
        1 => Ok(Value::Int(1)),
        -1 => power_of_minus_one(b),
        _ => Ok(Value::Int(0)),
    }
}

#[tactic(auto, using(crate::proofs::Powers::powers))]
fn power_of_minus_one(b: i128) -> Result<Value, Fault>
    ensures { result ≡ on_numbers Op.Pow (negsuc 0) b }
{
    if b % 2 == 0 {
        return Ok(Value::Int(1));
    }
    Ok(Value::Int(-1))
}

/// Each operator once.
pub const OPERATORS: [Op; 17] = operator_table!(all);

fn find77(text: &[u8], between: bool) -> Option<Op>
    ensures { result ≡ find (is_spelled spelling77_of text.now between) OPERATORS }
{
    OPERATORS
        .iter()
        .copied()
        .find(|op| op.is_spelled77(text, between))
}

fn find90(text: &[u8], between: bool) -> Option<Op>
    ensures { result ≡ find (is_spelled spelling90_of text.now between) OPERATORS }
{
    OPERATORS
        .iter()
        .copied()
        .find(|op| op.is_spelled90(text, between))
}

impl Op {
    /// The operator that is so spelled in FORTRAN 77, between two operands or before one: `-` is `Sub` there and `Neg`
    /// here.
    pub fn read77(text: &[u8], between: bool) -> Option<Op>
        ensures spelled { IfSome result (IsSpelled spelling77_of text.now between) }
        ensures every { (op : Op) → IsSpelled spelling77_of text.now between op → result ≡ Some op }
    {
        find77(text, between)
    }

    /// The operator that is so spelled in Fortran 90, between two operands or before one: `-` is `Sub` there and `Neg`
    /// here.
    pub fn read90(text: &[u8], between: bool) -> Option<Op>
        ensures spelled { IfSome result (IsSpelled spelling90_of text.now between) }
        ensures every { (op : Op) → IsSpelled spelling90_of text.now between op → result ≡ Some op }
    {
        find90(text, between)
    }

    /// Whether it stands between two operands, and not before one.
    pub fn stands_between(self) -> bool
        ensures { result ≡ stands_between self }
    {
        operator_table!(between self)
    }

    fn is_spelled77(self, text: &[u8], between: bool) -> bool
        ensures { result ≡ is_spelled spelling77_of text.now between self }
    {
        self.spell77().as_bytes() == text && self.stands_between() == between
    }

    fn is_spelled90(self, text: &[u8], between: bool) -> bool
        ensures { result ≡ is_spelled spelling90_of text.now between self }
    {
        self.spell90().as_bytes() == text && self.stands_between() == between
    }

    /// The operator in FORTRAN 77.
    pub fn spell77(self) -> &'static str
        ensures { result.now ≡ spelling77_of self }
    {
        operator_table!(spell77 self)
    }

    /// The operator in Fortran 90.
    pub fn spell90(self) -> &'static str
        ensures { result.now ≡ spelling90_of self }
    {
        operator_table!(spell90 self)
    }

    /// How tightly the operator binds, from 2 to 9.
    pub fn level(self) -> u8
        ensures { result ≡ level_of self }
    {
        operator_table!(level self)
    }

    /// The least level of the operand to its left.
    pub fn left_least(self) -> u8
        ensures { result ≡ left_least self }
    {
        operator_table!(left self)
    }

    /// The least level of the operand to its right.
    pub fn right_least(self) -> u8
        ensures { result ≡ right_least self }
    {
        operator_table!(right self)
    }

    /// Whether an operand that begins with a plus or minus sign may stand behind it.
    pub fn takes_sign(self) -> bool
        ensures { result ≡ takes_sign self }
    {
        operator_table!(sign self)
    }

    /// Whether it compares two numbers.
    pub fn is_relation(self) -> bool
        ensures { result ≡ is_relation self }
    {
        operator_table!(relation self)
    }

    /// The kind of its operands.
    pub fn operand_kind(self) -> Kind
        ensures { result ≡ operand_kind self }
    {
        operator_table!(operands self)
    }

    /// The kind of its values.
    pub fn result_kind(self) -> Kind
        ensures { result ≡ result_kind_of self }
    {
        operator_table!(result self)
    }

    /// The operator at its operands (ANSI X3.9-1978, sections 6.1, 6.3 and 6.4). `Neg` and `Not` don't look at `b`.
    ///
    /// Division truncates towards zero, and a negative power is one divided by the power. Operands of a kind that it
    /// doesn't take fault as `Shape`.
    #[tactic(auto, using(crate::proofs::Faults::apply_laws))]
    pub fn apply(self, a: Value, b: Value) -> Result<Value, Fault>
        ensures value { result ≡ apply self a b }
        ensures overflow { IsErrOf result Fault.Overflow ↔ LeavesRange (exact self a b) }
        ensures zero_divide { IsErrOf result Fault.ZeroDivide ↔ DividesByZero self a b }
        ensures shape { IsErrOf result Fault.Shape ↔ ¬ IsTrue (suits self a b) }
        ensures only_these { IfErr result IsOperationFault }
        ensures kind { IfOk result (λ value. kind_of value ≡ result_kind_of self) }
    {
        self.operate(a, b)
    }

    #[tactic(auto, using(crate::proofs::Exact::exact))]
    fn operate(self, a: Value, b: Value) -> Result<Value, Fault>
        ensures { result ≡ apply self a b }
    {
        operator_table!(value self a b)
    }
}
