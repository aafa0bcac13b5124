//! The plain meaning of a program: definitions of the source language, written without the machine.
#![tactic(auto)]
