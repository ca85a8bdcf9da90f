// The stops of documents 01 and 02: why a file, a question or an output is refused.
#![tactic(auto)]

ghost use Rattle.std.specs.Prelude.{◌≡◌};
ghost use Rattle.stops.specs.Numbers.{number};

// A stop, by its sentence in the documents. The checks stop at the first that is true.
#[derive(Clone, Copy, Debug, PartialEq, Eq)]
pub enum Stop {
    // The first four bytes are missing or are not the opening that the call expects.
    Opening,
    // The input ends before the last byte of a field that its earlier fields demand.
    Cut,
    // D is not 1 to 8.
    Dimensions,
    // A size is not 1 to 65,535.
    Size,
    // The row count or base count is above 1,024.
    Rows,
    // A code in a table row or base entry is not below its size.
    Code,
    // A base entry does not come strictly after the one before.
    Order,
    // A base entry has count 0, or a sum that this many readings cannot make, or brings the total count above 1,048,576.
    Amount,
    // A list count is above 70.
    List,
    // Bytes follow the check word.
    Trailing,
    // The check word is wrong.
    CheckWord,
    // A list, the normal count or a normal entry is not what the base entries require.
    Entries,
    // A question has other than D codes, or a code that is neither below its size nor 65,535.
    Question,
    // The set number that a call is given is 2 to the power D or more.
    Set,
    // The result is longer than the lent output.
    Output,
    // The dimension is not 1 to D.
    Dimension,
    // The dimensions or sizes of two archives differ.
    Sizes,
    // The result has over 1,024 base rows or a total count over 1,048,576.
    Many,
    // The question's code at the window's dimension is not the window's.
    Window,
    // The fee is above 1,000,000,000.
    Fee,
    // The archive has no base row.
    NoRows,
}

impl Stop {
    // Its number in the documents.
    pub fn number(self) -> u32
        ensures { result ≡ number self }
    {
        match self {
            Stop::Opening => 1,
            Stop::Cut => 2,
            Stop::Dimensions => 3,
            Stop::Size => 4,
            Stop::Rows => 5,
            Stop::Code => 6,
            Stop::Order => 7,
            Stop::Amount => 8,
            Stop::List => 9,
            Stop::Trailing => 10,
            Stop::CheckWord => 11,
            Stop::Entries => 12,
            Stop::Question => 13,
            Stop::Set => 14,
            Stop::Output => 15,
            Stop::Dimension => 16,
            Stop::Sizes => 17,
            Stop::Many => 18,
            Stop::Window => 20,
            Stop::Fee => 23,
            Stop::NoRows => 24,
        }
    }
}
