// Specifications only: specs/ has the laws of lookup on sound indexes of either format: it gives what the sorted list of the leaves' pairs has.
#![tactic(auto)]
