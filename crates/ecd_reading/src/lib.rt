//! Reading tokens from left to right, whatever a token is: definitions, and what every reader that is made of them keeps.
#![tactic(auto)]
