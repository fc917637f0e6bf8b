/// What is quoted, and what is not any more.
pub const ROWS: &str = r##"'(if a b)⇒L⇒'(if⏎  a⏎  b)⏎
'(if a b)⇒R⇒'(if a b)⏎
'(if a b)⇒RR⇒unfit
'(define a b)⇒L⇒'(define⏎  a⏎  b)⏎
'(define a b)⇒R⇒'(define a b)⏎
'(define a b)⇒RR⇒unfit
'(f (if a b))⇒LL⇒'(f⏎  (if⏎   a⏎   b))⏎
'(f (if a b))⇒LR⇒'(f⏎  (if a b))⏎
'(f (if a b))⇒RR⇒'(f (if a b))⏎
`(if a b)⇒L⇒`(if⏎  a⏎  b)⏎
`(if a b)⇒R⇒`(if a b)⏎
`(if a b)⇒RR⇒unfit
`(a ,(if b c))⇒LL⇒`(a⏎  ,(if b⏎       c))⏎
`(a ,(if b c))⇒LR⇒`(a⏎  ,(if b c))⏎
`(a ,(if b c))⇒RR⇒`(a ,(if b c))⏎
`(a ,@(if b c))⇒LL⇒`(a⏎  ,@(if b⏎        c))⏎
`(a ,@(if b c))⇒LR⇒`(a⏎  ,@(if b c))⏎
`(a ,@(if b c))⇒RR⇒`(a ,@(if b c))⏎
`(a #,(if b c))⇒LL⇒`(a⏎  #,(if⏎     b⏎     c))⏎
`(a #,(if b c))⇒LR⇒`(a⏎  #,(if b c))⏎
`(a #,(if b c))⇒RR⇒`(a #,(if b c))⏎
#'(if a b)⇒L⇒#'(if a⏎      b)⏎
#'(if a b)⇒R⇒#'(if a b)⏎
#'(if a b)⇒RR⇒unfit
#`(if a b)⇒L⇒#`(if a⏎      b)⏎
#`(if a b)⇒R⇒#`(if a b)⏎
#`(if a b)⇒RR⇒unfit
#,(if a b)⇒L⇒#,(if a⏎      b)⏎
#,(if a b)⇒R⇒#,(if a b)⏎
#,(if a b)⇒RR⇒unfit
#,@(if a b)⇒L⇒#,@(if a⏎       b)⏎
#,@(if a b)⇒R⇒#,@(if a b)⏎
#,@(if a b)⇒RR⇒unfit
#&(if a b)⇒L⇒#&(if a⏎      b)⏎
#&(if a b)⇒R⇒#&(if a b)⏎
#&(if a b)⇒RR⇒unfit
#1=(if a b)⇒L⇒#1=(if a⏎       b)⏎
#1=(if a b)⇒R⇒#1=(if a b)⏎
#1=(if a b)⇒RR⇒unfit
#(if a b)⇒L⇒#(if⏎  a⏎  b)⏎
#(if a b)⇒R⇒#(if a b)⏎
#(if a b)⇒RR⇒unfit
#(a ,(if b c))⇒LL⇒#(a⏎  ,(if b⏎       c))⏎
#(a ,(if b c))⇒LR⇒#(a⏎  ,(if b c))⏎
#(a ,(if b c))⇒RR⇒#(a ,(if b c))⏎
'#'(if a b)⇒L⇒'#'(if⏎    a⏎    b)⏎
'#'(if a b)⇒R⇒'#'(if a b)⏎
'#'(if a b)⇒RR⇒unfit
',(if a b)⇒L⇒',(if a⏎      b)⏎
',(if a b)⇒R⇒',(if a b)⏎
',(if a b)⇒RR⇒unfit
,'(if a b)⇒L⇒,'(if⏎   a⏎   b)⏎
,'(if a b)⇒R⇒,'(if a b)⏎
,'(if a b)⇒RR⇒unfit
'(a `,(if b c))⇒LL⇒'(a⏎  `,(if b⏎        c))⏎
'(a `,(if b c))⇒LR⇒'(a⏎  `,(if b c))⏎
'(a `,(if b c))⇒RR⇒'(a `,(if b c))⏎
(quote (if a b))⇒LL⇒(quote⏎ (if a⏎     b))⏎
(quote (if a b))⇒LR⇒(quote⏎ (if a b))⏎
(quote (if a b))⇒RR⇒(quote (if a b))⏎
#s(if a b)⇒L⇒#s(if⏎   a⏎   b)⏎
#s(if a b)⇒R⇒#s(if a b)⏎
#s(if a b)⇒RR⇒unfit
#hash((if . b))⇒L⇒#hash((if⏎       . b))⏎
#hash((if . b))⇒R⇒#hash((if . b))⏎
#hash((if . b))⇒RR⇒unfit
'#;(if a b) c⇒L⇒'#;(if⏎    a⏎    b) c⏎
'#;(if a b) c⇒R⇒'#;(if a b) c⏎
'#;(if a b) c⇒RR⇒unfit
#;(if a b)⇒L⇒#;(if a⏎      b)⏎
#;(if a b)⇒R⇒#;(if a b)⏎
#;(if a b)⇒RR⇒unfit
#;'(if a b) c⇒L⇒#;'(if⏎    a⏎    b)⏎c⏎
#;'(if a b) c⇒R⇒#;'(if a b)⏎c⏎
#;'(if a b) c⇒RR⇒unfit
(f #;(if a b) c)⇒LL⇒(f⏎ #;(if a⏎       b)⏎ c)⏎
(f #;(if a b) c)⇒LR⇒(f⏎ #;(if a b)⏎ c)⏎
(f #;(if a b) c)⇒RRR⇒(f #;(if a b) c)⏎
,(if a b)⇒L⇒,(if a⏎     b)⏎
,(if a b)⇒R⇒,(if a b)⏎
,(if a b)⇒RR⇒unfit"##;
