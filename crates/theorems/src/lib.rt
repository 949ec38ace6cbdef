// What is promised of the whole, each as a statement of its own (specs/) with its proof. There is no code.
#![tactic(auto)]
