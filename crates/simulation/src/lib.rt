// What conversion keeps: converted blocks do what their source does, and never fault.

#![tactic(auto)]
