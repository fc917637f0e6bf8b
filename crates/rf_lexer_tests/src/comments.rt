/// Line comments and block comments.
pub const ROWS: &str = r##";⇒line 0-1 own
;a⏎b⇒line 0-2 own, atom 3-4
a;b⇒atom 0-1, line 1-3
a ;b⏎;c⇒atom 0-1, line 2-4, line 5-7 own
⏎;a⇒line 1-3 own
⏎⏎;a⇒line 2-4 blanks 1 own
a⏎⏎⏎;b⇒atom 0-1, line 4-6 blanks 2 own
;a␍⏎b⇒line 0-2 own, atom 4-5
;a\⏎b⇒line 0-3 own, atom 4-5
;;;"|#|⇒line 0-7 own
#!/bin/racket⏎a⇒line 0-13 own, atom 14-15
#! x␍⏎⇒line 0-4 own
a #! x⇒atom 0-1, line 2-6
#!/⇒line 0-3 own
#! \a⇒line 0-5 own
a␍;b⇒atom 0-1, line 2-4
a²;b⇒atom 0-1, line 4-6
#||#⇒block 0-4
#|a|#b⇒block 0-5, atom 5-6
#|#||#|#⇒block 0-8
#||##||#⇒block 0-4, block 4-8
#|⏎␍⏎²|#a⇒block 0-10, atom 10-11
#|||#⇒block 0-5
#|#|a|#|#;b⇒block 0-9, line 9-11
(#|"|#)⇒( 0-1, block 1-6, ) 6-7
a #|;|#⇒atom 0-1, block 2-7
#||#⏎;a⇒block 0-4, line 5-7 own
; a␍b⇒StrayLineEnd at 3
;¹⇒StrayLineEnd at 1
;²⇒StrayLineEnd at 1
;é³⇒StrayLineEnd at 3
;a␍⇒StrayLineEnd at 2
;a␍␍⏎⇒StrayLineEnd at 2
#!/a²⇒StrayLineEnd at 4
#! a\␍b⇒StrayLineEnd at 5
a⏎;¹⏎⇒StrayLineEnd at 3
#!⇒BadHash at 0
#!x⇒BadHash at 0
#! a\⇒BadHash at 0
#! a\⏎b⇒BadHash at 0
a #!/\␍⏎⇒BadHash at 2
#|a⇒OpenComment at 0
#|⇒OpenComment at 0
#|#|#⇒OpenComment at 0
#|#|a|#⇒OpenComment at 0
a⏎#|⇒OpenComment at 2
#|\⇒OpenComment at 0
#|##|#⇒OpenComment at 0"##;
