// Base rows in a window: what they reply, and why it is all that a question through the window can get; there is no code here.
#![tactic(auto)]
