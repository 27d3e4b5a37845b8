// An input that comes part by part: what is left over of one part stands before the next. There is no code here.
#![tactic(auto)]
