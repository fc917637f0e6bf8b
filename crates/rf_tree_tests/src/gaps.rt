/// What stands between neighbours.
pub const ROWS: &str = r##"a b⇒ssl0
a "b"⇒esl0
"a" b⇒esl0
a (b)⇒esl0 esl0 esl0
(a b)⇒esl0 ssl0 esl0
()⇒esl0
'a⇒esl0
,a⇒esl0
, @a⇒ssl0
#, @a⇒ssl0
,@a⇒esl0
' @a⇒esl0
#` @a⇒esl0
a 'b⇒esl0 esl0
a #t⇒ssl0
a #;b⇒ssl0 esl0
a #|b|#⇒ssl0
#|b|# a⇒esl0
(a . b)⇒esl0 ssl0 ssl0 esl0
(a . "b")⇒esl0 ssl0 esl0 esl0
a ;c⇒ssss
(;c⏎ a)⇒ssss 0000 esl0
(a ;c⏎)⇒esl0 ssss 0000
(a⏎;c⏎)⇒esl0 0000 0000
a⏎⏎;c⏎b⇒1111 0000
a⏎⏎⏎b⇒2222
a⏎⏎⏎⏎⏎⏎⏎⏎⏎⏎⏎⏎b⇒9999
(⏎⏎a⏎⏎)⇒esl0 esl0
(a⏎⏎b)⇒esl0 1111 esl0
;c⏎⏎;d⏎(a)⇒1111 0000 esl0 esl0
#<<E⏎x⏎E⏎a⇒0000
#<<E⏎x⏎E⏎⏎⏎a⇒2222
(f #<<E⏎x⏎E⏎)⇒esl0 ssl0 0000
#lang racket⏎a⇒0000
#lang racket⏎⏎;c⇒1111
#lang racket ;c⇒ssss"##;
