/// Dots where they are lawful and where they are not.
pub const ROWS: &str = r##"(a . b)⇒(0 1 2 3 4)
(a b . c)⇒(0 1 2 3 4 5)
(a . b . c)⇒(0 1 2 3 4 5 6)
(a b . c . d e)⇒(0 1 2 3 4 5 6 7 8)
(a #;x . ;c⏎ b #|d|#)⇒(0 1 #2{3} 4 ;5 6 ;7 8)
(a . #;x b . c)⇒(0 1 2 #3{4} 5 6 7 8)
(a . 'b)⇒(0 1 2 '3{4} 5)
(a . (b . c))⇒(0 1 2 (3 4 5 6 7) 8)
'(a . b)⇒'0{(1 2 3 4 5)}
(a . b #;c)⇒(0 1 2 3 #4{5} 6)
#hash((a . b))⇒(0 (1 2 3 4 5) 6)
.⇒BadDot at 0
a . b⇒BadDot at 2
(. a)⇒BadDot at 1
(;c⏎ . a)⇒BadDot at 5
(#;x . a)⇒BadDot at 5
(a .)⇒BadDot at 4
(a . #;b)⇒BadDot at 8
(a . . b)⇒BadDot at 5
(a . b c)⇒BadDot at 7
(a . b (c))⇒BadDot at 7
(a . b 'c)⇒BadDot at 7
(a . b "c")⇒BadDot at 7
(a . b . )⇒BadDot at 9
(a . b . c . d)⇒BadDot at 11
(a . b . c d . e)⇒BadDot at 13
(a b . c . . d)⇒BadDot at 11
#(a . b)⇒BadDot at 4
#s(a . b)⇒BadDot at 5
#3(a . b)⇒BadDot at 5
#(. a)⇒BadDot at 2
'.⇒BadDot at 1
(a '. b)⇒BadDot at 4
#;.⇒BadDot at 2
(a . #;. b)⇒BadDot at 7
(#;(a . b c) d)⇒BadDot at 10
((a . b) . (c . d e))⇒BadDot at 18"##;
