//! The types of values, and what well-typed resolved formulas, statements and parts of views are.
#![tactic(auto)]
