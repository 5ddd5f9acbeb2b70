// The drum change and document 01's controller, with a bank beside its record, on one link: theorems alone, and no code. The drum change itself knows no controller.
#![tactic(auto)]
