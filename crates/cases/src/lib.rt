// The numbers on both sides of a limit, document 01's P1 to P12, as one list under one statement: specs/Cases.antt. No code.
#![tactic(auto)]
