// What a source becomes, which places cannot be converted, and what both are of nested blocks.

#![tactic(auto)]
