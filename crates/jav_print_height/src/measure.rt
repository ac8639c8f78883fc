//! What is counted of an expression.
ghost use Rattle.std.specs.Prelude.{◌≡◌};
ghost use Rattle.jav_tree.specs.Height as tree;
ghost use Rattle.jav_print_height.specs.Measures as spec;

/// An expression as it is printed, without parentheses round it: its height, and what decides whether it needs them.
#[derive(Clone, Copy)]
pub struct Measure {
    /// From 1 on. The greatest `u32` stands for all that is higher.
    pub height: u32,
    /// The level of its loosest operator: 1 the loosest, 15 the tightest.
    pub level: u8,
    /// Whether that operator is a prefix `+`, `-`, `++` or `--`.
    pub is_signed: bool,
    /// Whether the expression is a number literal.
    pub is_number: bool,
}

impl Measure {
    /// The measure of an expression whose loosest operator is of this level.
    pub fn of_level(level: u8, height: u32) -> Measure
        ensures { result ≡ spec.of_level level height }
    {
        Measure {
            height,
            level,
            is_signed: false,
            is_number: false,
        }
    }

    /// The measure of what binds as tightly as a name.
    pub fn tight(height: u32) -> Measure
        ensures { result ≡ spec.tight height }
    {
        Measure::of_level(15, height)
    }

    /// How high it is where this level or a greater one is needed.
    pub fn height_from(self, level: u8) -> u32
        ensures { result ≡ spec.from level self }
    {
        self.parenthesized(self.level < level)
    }

    /// How high it is before a dot.
    pub fn height_before_dot(self) -> u32
        ensures { result ≡ spec.before_dot self }
    {
        self.parenthesized(self.level < 15 || self.is_number)
    }

    /// How high it is as the operand of a cast.
    pub fn height_in_cast(self, is_primitive: bool) -> u32
        ensures { result ≡ spec.cast_operand is_primitive self }
    {
        self.parenthesized(self.level < 13 || (!is_primitive && self.is_signed))
    }

    /// How high it is, with parentheses round it where they are needed.
    fn parenthesized(self, is_needed: bool) -> u32
        ensures { result ≡ spec.parenthesized is_needed self.height }
    {
        if is_needed {
            above(self.height)
        } else {
            self.height
        }
    }
}

/// One higher than what is held.
pub fn above(held: u32) -> u32
    ensures { result ≡ tree.above held }
{
    held.saturating_add(1)
}
