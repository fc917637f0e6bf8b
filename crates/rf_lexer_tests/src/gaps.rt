/// White space, blank lines and comments that begin their line.
pub const ROWS: &str = r##"⇒
 ⇒
⏎⏎⇒
 ⇥␍⏎°¹²³⇒
a⏎⏎⏎b⇒atom 0-1, atom 4-5 blanks 2
⏎⏎a⏎b ⏎ ⏎⏎c⇒atom 2-3 blanks 1, atom 4-5, atom 10-11 blanks 2
a␍⏎␍⏎b⇒atom 0-1, atom 5-6 blanks 1
a␍b⇒atom 0-1, atom 2-3
a¹b⇒atom 0-1, atom 3-4
a²³b⏎⇒atom 0-1, atom 7-8
⏎)⏎⏎(⇒) 1-2, ( 4-5 blanks 1
°λ°°b⇒atom 2-4, atom 8-9
a⏎#||#⏎⏎"b"⇒atom 0-1, block 2-6, string 8-11 blanks 1
a⏎ ;c⏎ ⏎.⇒atom 0-1, line 3-5 own, dot 8-9 blanks 1
a⏎⏎#⇒BadHash at 3
°"⇒OpenString at 2"##;
