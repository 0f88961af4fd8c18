ghost use Rattle.std.specs.Prelude.{◌≡◌};
ghost use Rattle.arr_num.specs.Kinds.{is_reduction, is_scan, walks_input};

/// What an operation does (docs/LANGUAGE.md, "Opcodes"). The codes from `Add` to `GreaterEqual` are
/// binary; `Absolute`, `Invert` and `Identity` are unary; these and `Range` are element-wise. Then come
/// four reductions, two scans, and two codes that compute nothing.
#[derive(Clone, Copy, Debug, PartialEq, Eq)]
pub enum Code {
    /// The sum, wrapped.
    Add,
    /// The difference, wrapped.
    Subtract,
    /// The product, wrapped.
    Multiply,
    /// The quotient, truncated toward zero and wrapped; 0 where the divisor is 0.
    Divide,
    /// What truncated division leaves, with the sign of the dividend; 0 where the divisor is 0.
    Mod,
    /// The power, wrapped; the exponent is a constant from 0 to 18446744073709551615.
    Power,
    /// The greater number.
    Maximum,
    /// The lesser number.
    Minimum,
    /// The binary digits that both have.
    BitwiseAnd,
    /// The binary digits that one of them has.
    BitwiseOr,
    /// The binary digits that just one of them has.
    BitwiseXor,
    /// The left number times 2 to the power of the count, wrapped; the count is taken modulo the bits.
    LeftShift,
    /// The left number divided by 2 to the power of the count, rounded down; the count is taken modulo the bits.
    RightShift,
    /// 1 where the numbers are equal, else 0.
    Equal,
    /// 1 where the numbers differ, else 0.
    NotEqual,
    /// 1 where the left number is the lesser, else 0.
    Less,
    /// 1 where the left number isn't the greater, else 0.
    LessEqual,
    /// 1 where the left number is the greater, else 0.
    Greater,
    /// 1 where the left number isn't the lesser, else 0.
    GreaterEqual,
    /// The distance from 0, wrapped.
    Absolute,
    /// Every binary digit turned.
    Invert,
    /// The number itself, wrapped into the output's type.
    Identity,
    /// The position, counted from 0 in row-major order and wrapped.
    Range,
    /// The sum along an axis.
    AddReduce,
    /// The product along an axis.
    MultiplyReduce,
    /// The least number along an axis.
    MinimumReduce,
    /// The greatest number along an axis.
    MaximumReduce,
    /// The sums along an axis up to each position.
    AddAccumulate,
    /// The products along an axis up to each position.
    MultiplyAccumulate,
    /// Ends a base.
    Free,
    /// Copies an array into a print slot.
    Sync,
}

impl Code {
    /// Whether it is a reduction (docs/LANGUAGE.md, "Opcodes").
    pub fn is_reduction(self) -> bool
        ensures { result ≡ is_reduction self }
    {
        matches!(
            self,
            Code::AddReduce | Code::MultiplyReduce | Code::MinimumReduce | Code::MaximumReduce
        )
    }

    /// Whether it is a scan (docs/LANGUAGE.md, "Opcodes").
    pub fn is_scan(self) -> bool
        ensures { result ≡ is_scan self }
    {
        matches!(self, Code::AddAccumulate | Code::MultiplyAccumulate)
    }

    /// Whether an operation walks the shape of its input: that of a reduction, and SYNC (docs/LANGUAGE.md, "Operations").
    pub fn walks_input(self) -> bool
        ensures { result ≡ walks_input self }
    {
        self.is_reduction() || self == Code::Sync
    }
}
