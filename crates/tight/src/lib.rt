// What the functions' own contracts say, as theorems: each public function's promise is tight, and the door's meets the demands. There is
// no code here.
#![tactic(auto)]
