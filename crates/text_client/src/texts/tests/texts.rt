//! The texts of the report with each kind of line.

/// Without steps.
pub const PLAIN: &str = "image 128 of 512
table backup
session 1 part 2 first 34 count 30
  attach 8 id 1
  attach 9 no-frames
  attach 9 no-ids
  attach 9 no-memory
  fill 1 0 4 0a yes
  send 0 abababababababababababababababababababababababababababababababab
  answer 0 reqid 13 group 3 count 4
  answer -14 reqid 13 group 3 count 4
  show 1 4 1 yes
    4 01ff
  show 1 0 9 no
  aborted
steps 5
closing fault
end
";

/// With the rows, the memory and the steps.
pub const WITH_STEPS: &str = "image 128 of 512
table backup
session 1 part 2 first 34 count 30
  attach 8 id 1
  attach 9 no-frames
  attach 9 no-ids
  attach 9 no-memory
  fill 1 0 4 0a yes
  send 0 abababababababababababababababababababababababababababababababab
  answer 0 reqid 13 group 3 count 4
  answer -14 reqid 13 group 3 count 4
  show 1 4 1 yes
    4 01ff
  show 1 0 9 no
  aborted
  taken 0 accepted -40
  taken 1 refused -14
  memory attach 1 8 0
  memory fill 1 0 4 0a
  memory show 1 4 1
  memory pin 2 1
  memory lift 2 0 1 3 all 00
  memory land 2 1 1 4 01ff
  memory done 2 1
  memory close 3 1
  memory release 1
steps 5
  step 1 0 0 write 34 ok all c1
  step 1 1 0 read 35 ok 01ff
  step 1 1 1 read 36 fault
  step 1 2 0 trim 40 ok
  step 0 0 0 flush 0 fault
closing fault
end
";

/// As `load` tells it.
pub const SUMMARY: &str = "load 1 sessions 1 records
answers 2 ok 1 failed 1
steps 5
closing fault
end
";
