// Numbers as digits in a base, and lists written stretch by stretch: definitions and laws, no functions.
#![tactic(auto)]
